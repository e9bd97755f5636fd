// Numbers whose bytes all lie on one page: the page is looked up once, and the bytes are read and written there directly. The first
// byte's page, kind and place decide for all of them (proofs/OnePage.antt, `first_byte_decides`).
ghost use Rattle.std.specs.Prelude.{◌≡◌, ◌+◌, ◌<◌, length};
ghost use Rattle.pages.specs.Pages.{spot};
ghost use Rattle.numbers.specs.Numbers.{byte_count, number_at, put_at};
ghost use Rattle.accesses.specs.Access.{lookup_of};
ghost use Rattle.memory.specs.Blocked.{against};
ghost use Rattle.memory.specs.OnePage.{one_page, located, quickly, PageHolds, on_lent_page, store_at};

use crate::blocked::Blocked;
use accesses::{Access, Failure};
use addresses::canonical;
use numbers::Size;
use pages::{PAGE_BYTES, find};

// Whether n bytes, counting up from an address, all lie on its page.
#[tactic(auto, unfolding(crate::specs::OnePage::one_page), using(crate::proofs::PageParts::room_on_page))]
fn one_page(address: u64, n: u64) -> bool
    ensures { result ≡ one_page address n }
{
    n <= (PAGE_BYTES as u64) - address % (PAGE_BYTES as u64)
}

// Tries an access by its first byte alone, where all its bytes lie on one page. One on two pages is not tried.
#[tactic(auto, unfolding(crate::specs::OnePage::quickly, crate::specs::OnePage::first_located, crate::specs::OnePage::first_reach))]
pub(crate) fn quick(access: Access, pages: &[u64], lent: usize) -> Result<Option<usize>, Blocked>
    ensures { result ≡ against access (quickly (spot pages.now lent) access) }
{
    let blocked = |failure| Err(Blocked { access, failure });
    let first = access.width.wrap(access.first);
    if !one_page(first, access.size.bytes()) {
        return Ok(None);
    }
    if access.canonical && !canonical(first) {
        return blocked(Failure::NotCanonical);
    }
    match find(pages, lent, first) {
        None => blocked(Failure::NotListed(first)),
        Some(spot) if spot.kind == access.kind.into() => Ok(Some(spot.place)),
        Some(_) => blocked(Failure::WrongKind(first)),
    }
}

// Tries an access: by its first byte where all lie on one page, else byte by byte. No byte is looked at, only how many are lent.
// The place of the first byte comes back where all its bytes lie on one page, and none where they lie on two.
pub fn locate(access: Access, pages: &[u64], bytes: &[u8]) -> Result<Option<usize>, Blocked>
    ensures { result ≡ against access (located (lookup_of pages.now bytes.now) access) }
{
    match quick(access, pages, bytes.len())? {
        Some(place) => Ok(Some(place)),
        None => match access.try_each(pages, bytes.len()) {
            Ok(()) => Ok(None),
            Err(failure) => Err(Blocked { access, failure }),
        },
    }
}

// The number at a place, all on one page. Only that page is handed on.
pub(crate) fn load_within(bytes: &[u8], place: usize, size: Size) -> u64
    requires { PageHolds (length bytes.now) place (byte_count size) }
    ensures { result ≡ number_at bytes.now place (byte_count size) }
{
    let at = place % PAGE_BYTES;
    let start = place - at;
    let end = start + PAGE_BYTES;
    numbers::load(&bytes[start..end], at, size).unwrap_or(0)
}

// Writes the low bytes of a value at a place, all on one page. Only that page is lent on.
pub(crate) fn store_within(bytes: &mut [u8], place: usize, size: Size, value: u64)
    requires { PageHolds (length bytes.old) place (byte_count size) }
    ensures { bytes.new ≡ put_at place (byte_count size) value bytes.old }
{
    let at = place % PAGE_BYTES;
    let start = place - at;
    let end = start + PAGE_BYTES;
    numbers::store(&mut bytes[start..end], at, size, value);
}

// Whether n bytes from a place on lie on one page, and that is lent whole.
#[tactic(auto, unfolding(crate::specs::OnePage::on_lent_page))]
fn on_lent_page(lent: usize, place: usize, n: u64) -> bool
    ensures { result ≡ on_lent_page lent place n }
{
    place / PAGE_BYTES < lent / PAGE_BYTES && one_page(place as u64, n)
}

// Writes the low bytes of a value at any place, or nothing where they do not all lie on one page that is lent whole; and says which.
#[tactic(auto, unfolding(crate::specs::OnePage::store_at), using(crate::proofs::OnePage::page_lies))]
pub fn store_at(bytes: &mut [u8], place: usize, size: Size, value: u64) -> bool
    ensures value { result ≡ on_lent_page (length bytes.old) place (byte_count size) }
    ensures bytes_after { bytes.new ≡ store_at place (byte_count size) value bytes.old }
{
    let fits = on_lent_page(bytes.len(), place, size.bytes());
    if fits {
        store_within(bytes, place, size, value);
    }
    fits
}
