// The stores of one operation, as a list: all are tried in their order before any is made, so that the first that cannot be
// done leaves every byte as it was.
#![tactic(auto)]

mod list;

ghost use Rattle.std.specs.Prelude.{◌≡◌, Ok};
ghost use Rattle.accesses.specs.Access.{lookup_of, written};
ghost use Rattle.memory.specs.OnePage.{located};
ghost use Rattle.stores.specs.Stores.{try_all, written_all, left_by};
ghost use Rattle.stores.specs.Places.{located_all};

pub use list::store_list;
use memory::{Access, Blocked, store_at};

// A store that is to be made: the value's low bytes, by an access.
#[derive(Clone, Copy)]
pub struct Store {
    pub access: Access,
    pub value: u64,
}

// Tries the stores in their order, and notes where each lies whose bytes all lie on one page.
fn locate_all<const N: usize>(
    stores: &[Store; N],
    pages: &[u64],
    bytes: &[u8],
) -> Result<[Option<usize>; N], Blocked>
    ensures { result ≡ located_all (lookup_of pages.now bytes.now) stores.now }
{
    let mut places = [None; N];
    for (k, store) in stores.iter().enumerate() {
        places[k] = memory::locate(store.access, pages, bytes)?;
    }
    Ok(places)
}

// Makes a store that can be done: at its place, or byte by byte where none was noted.
fn make(store: Store, place: Option<usize>, pages: &[u64], bytes: &mut [u8])
    requires { located (lookup_of pages.now bytes.old) store.access ≡ Ok place }
    ensures { bytes.new ≡ written (lookup_of pages.now bytes.old) store.access store.value bytes.old }
{
    match place {
        Some(at) => {
            store_at(bytes, at, store.access.size, store.value);
        }
        None => {
            let _ = memory::store(store.access, pages, bytes, store.value);
        }
    }
}

// Makes stores that can all be done, in their order.
fn make_all<const N: usize>(
    stores: &[Store; N],
    places: &[Option<usize>; N],
    pages: &[u64],
    bytes: &mut [u8],
)
    requires { located_all (lookup_of pages.now bytes.old) stores.now ≡ Ok places.now }
    ensures { bytes.new ≡ written_all (lookup_of pages.now bytes.old) stores.now bytes.old }
{
    for (k, store) in stores.iter().enumerate() {
        make(*store, places[k], pages, bytes);
    }
}

// Makes the stores of the list if all can be made, each page looked up once for a number that lies on one; else none of them.
pub fn store_all<const N: usize>(
    stores: &[Store; N],
    pages: &[u64],
    bytes: &mut [u8],
) -> Result<(), Blocked>
    ensures value { result ≡ try_all (lookup_of pages.now bytes.old) stores.now }
    ensures bytes_after { bytes.new ≡ left_by result (written_all (lookup_of pages.now bytes.old) stores.now bytes.old) bytes.old }
{
    let places = locate_all(stores, pages, bytes)?;
    make_all(stores, &places, pages, bytes);
    Ok(())
}
