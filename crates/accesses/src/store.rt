// Stores, byte by byte: 4 or 8 bytes of a number, low byte first.
ghost use Rattle.std.specs.Prelude.{◌≡◌, length, set};
ghost use Rattle.addresses.specs.Address.{wrapped};
ghost use Rattle.pages.specs.Pages.{spot};
ghost use Rattle.accesses.specs.Access.{lookup_of, put_byte, write as write_of, probe, store};

use crate::access::Access;
use crate::reach::Failure;
use addresses::Width;
use pages::{PAGE_BYTES, find};

// Sets one byte of a page; nothing where the offset is past its end.
fn put_in_page(page: &mut [u8], offset: usize, byte: u8)
    ensures { page.new ≡ set page.old offset byte }
{
    if offset < page.len() {
        page[offset] = byte;
    }
}

// Sets the byte that an address leads to, if it leads to one. Only that byte's page is lent on.
#[tactic(auto, using(crate::proofs::Spots::spot_page, crate::proofs::Parts::put_in))]
fn put(pages: &[u64], bytes: &mut [u8], address: u64, byte: u8)
    ensures { bytes.new ≡ put_byte (spot pages.now (length bytes.old) address) byte bytes.old }
{
    if let Some(spot) = find(pages, bytes.len(), address) {
        let offset = spot.place % PAGE_BYTES;
        let start = spot.place - offset;
        put_in_page(&mut bytes[start..start + PAGE_BYTES], offset, byte);
    }
}

// Writes the low n bytes of a value, counting up from the first address.
#[tactic(auto, using(crate::proofs::Steps::write_first, crate::proofs::Steps::write_on, crate::proofs::Steps::write_end, crate::proofs::Parts::length_put))]
fn write(pages: &[u64], bytes: &mut [u8], width: Width, first: u64, n: u64, value: u64)
    ensures { bytes.new ≡ write_of (spot pages.now (length bytes.old)) width (wrapped width first) n value bytes.old }
{
    let mut rest = value;
    for k in 0..n {
        put(pages, bytes, width.plus(first, k), (rest % 256) as u8);
        rest /= 256;
    }
}

impl Access {
    // Tries the access, and stores the value's low bytes where it can be done, each by a lookup of its own; else every byte stays as it was.
    #[tactic(auto, unfolding(crate::specs::Access::lookup_of, crate::specs::Access::store, crate::specs::Access::written))]
    pub fn store_each(self, pages: &[u64], bytes: &mut [u8], value: u64) -> Result<(), Failure>
        ensures value { result ≡ probe (lookup_of pages.now bytes.old) self }
        ensures bytes_after { bytes.new ≡ store (lookup_of pages.now bytes.old) self value bytes.old }
    {
        self.try_each(pages, bytes.len())?;
        write(
            pages,
            bytes,
            self.width,
            self.first,
            self.size.bytes(),
            value,
        );
        Ok(())
    }
}
