// Stores of one operation, in a list whose length is known only at run time.
//
// Of an array, take `store_all`: as it tries the stores it notes where each lies on one page, in a second array as long as the first, and
// looks that page up no more to make it. For a list there is nowhere to note that, since nothing here allocates: every page is looked up
// when its store is tried, and once more when it is made. What comes back and what the bytes hold then is the same for both.
ghost use Rattle.std.specs.Prelude.{◌≡◌, Ok};
ghost use Rattle.accesses.specs.Access.{lookup_of};
ghost use Rattle.stores.specs.Stores.{try_all, written_all, left_by};

use crate::Store;
use memory::Blocked;

// Tries the stores in their order: the first that cannot be done answers.
fn try_list(stores: &[Store], pages: &[u64], bytes: &[u8]) -> Result<(), Blocked>
    ensures { result ≡ try_all (lookup_of pages.now bytes.now) stores.now }
{
    for store in stores {
        memory::locate(store.access, pages, bytes)?;
    }
    Ok(())
}

// Makes stores that can all be done, in their order.
fn make_list(stores: &[Store], pages: &[u64], bytes: &mut [u8])
    requires { try_all (lookup_of pages.now bytes.old) stores.now ≡ Ok tt }
    ensures { bytes.new ≡ written_all (lookup_of pages.now bytes.old) stores.now bytes.old }
{
    for store in stores {
        let _ = memory::store(store.access, pages, bytes, store.value);
    }
}

// Makes the stores of a list whose length is known only at run time, if all can be made, in their order; else none of them. One that was
// made could not be taken back, so all are tried first, and every page is looked up twice. Where the stores stand in an array take
// `store_all`, which looks a page up once for a number that lies on one.
pub fn store_list(stores: &[Store], pages: &[u64], bytes: &mut [u8]) -> Result<(), Blocked>
    ensures value { result ≡ try_all (lookup_of pages.now bytes.old) stores.now }
    ensures bytes_after { bytes.new ≡ left_by result (written_all (lookup_of pages.now bytes.old) stores.now bytes.old) bytes.old }
{
    try_list(stores, pages, bytes)?;
    make_list(stores, pages, bytes);
    Ok(())
}
