// Loads and stores: by one lookup where all bytes lie on one page, else byte by byte.
ghost use Rattle.std.specs.Prelude.{◌≡◌};
ghost use Rattle.accesses.specs.Access.{lookup_of, probe as probe_of, load as load_of, store as store_of};
ghost use Rattle.memory.specs.Blocked.{against};

use crate::blocked::Blocked;
use crate::one_page::{load_within, quick, store_within};
use accesses::Access;

// Tries an access, and loads its bytes where it can be done.
pub fn load(access: Access, pages: &[u64], bytes: &[u8]) -> Result<u64, Blocked>
    ensures { result ≡ against access (load_of (lookup_of pages.now bytes.now) bytes.now access) }
{
    match quick(access, pages, bytes.len())? {
        Some(place) => Ok(load_within(bytes, place, access.size)),
        None => access
            .load_each(pages, bytes)
            .map_err(|failure| Blocked { access, failure }),
    }
}

// Tries an access, and stores the value's low bytes where it can be done; else every byte stays as it was.
pub fn store(access: Access, pages: &[u64], bytes: &mut [u8], value: u64) -> Result<(), Blocked>
    ensures value { result ≡ against access (probe_of (lookup_of pages.now bytes.old) access) }
    ensures bytes_after { bytes.new ≡ store_of (lookup_of pages.now bytes.old) access value bytes.old }
{
    let Some(place) = quick(access, pages, bytes.len())? else {
        return access
            .store_each(pages, bytes, value)
            .map_err(|failure| Blocked { access, failure });
    };
    store_within(bytes, place, access.size, value);
    Ok(())
}
