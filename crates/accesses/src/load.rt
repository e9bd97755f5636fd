// Loads, byte by byte: the number that 4 or 8 bytes hold, low byte first.
ghost use Rattle.std.specs.Prelude.{◌≡◌, length};
ghost use Rattle.addresses.specs.Address.{wrapped};
ghost use Rattle.pages.specs.Pages.{spot};
ghost use Rattle.numbers.specs.Numbers.{byte_count};
ghost use Rattle.accesses.specs.Access.{lookup_of, byte_in, number as number_of, load};

use crate::access::Access;
use crate::reach::Failure;
use addresses::Width;
use numbers::Size;
use pages::find;

// The byte that an address leads to, 0 where it leads to none.
#[tactic(auto, using(crate::proofs::Spots::spot_inside))]
fn byte_at(pages: &[u64], bytes: &[u8], address: u64) -> u8
    ensures { result ≡ byte_in bytes.now (spot pages.now (length bytes.now) address) }
{
    match find(pages, bytes.len(), address) {
        None => 0,
        Some(spot) => bytes[spot.place],
    }
}

// The number that the bytes hold, low byte first. It is built from the last byte down, so that each turn is one multiplication and one
// sum.
#[tactic(auto, using(crate::proofs::Numbers::built_none, crate::proofs::Numbers::built_all))]
fn number(pages: &[u64], bytes: &[u8], width: Width, first: u64, size: Size) -> u64
    ensures { result ≡ number_of (spot pages.now (length bytes.now)) bytes.now width (wrapped width first) (byte_count size) }
{
    let mut value: u64 = 0;
    for k in (0..size.bytes()).rev() {
        let byte = byte_at(pages, bytes, width.plus(first, k));
        value = value * 256 + byte as u64;
    }
    value
}

impl Access {
    // Tries the access, and loads its bytes where it can be done, each by a lookup of its own.
    #[tactic(auto, unfolding(crate::specs::Access::lookup_of, crate::specs::Access::load, crate::specs::Access::value))]
    pub fn load_each(self, pages: &[u64], bytes: &[u8]) -> Result<u64, Failure>
        ensures { result ≡ load (lookup_of pages.now bytes.now) bytes.now self }
    {
        self.try_each(pages, bytes.len())?;
        Ok(number(pages, bytes, self.width, self.first, self.size))
    }
}
