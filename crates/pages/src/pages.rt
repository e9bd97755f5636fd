// The page list: its entries, the refusals that it may get, and what an address leads to.
//
// An entry is a page's address with the page's kind in its low 12 bits. Entry i owns the lent bytes from 4,096 * i on.
ghost use Rattle.std.specs.Prelude.{◌≡◌};
ghost use Rattle.std.specs.List.{list_any};
ghost use Rattle.pages.specs.Pages.{page_of, kind_of, wrong_length, bad_kind as bad_kind_of, bad_address as bad_address_of, on_page as on_page_of, repeated as repeated_of, listing, refusal_number, in_page, spot};

use addresses::canonical;

// A page's size in bytes.
pub const PAGE_BYTES: usize = 4096;

// How many entries a page list may have.
pub const PAGE_LIMIT: usize = 16;

// Why a page list is refused.
#[derive(Clone, Copy)]
pub enum ListError {
    // Too many entries, or a byte length that is not 4,096 for each.
    BadLength,
    // An entry whose kind is none of the three.
    BadKind,
    // An entry whose page address is not canonical.
    BadAddress,
    // Two entries with one page address.
    Repeated,
}

// The number of the refusal.
impl From<ListError> for u64 {
    ghost from_gives = { λ error n. n ≡ refusal_number error };

    fn from(error: ListError) -> u64 {
        match error {
            ListError::BadLength => 1,
            ListError::BadKind => 2,
            ListError::BadAddress => 3,
            ListError::Repeated => 4,
        }
    }
}

// Where an address on a listed page leads.
#[derive(Clone, Copy)]
pub struct Spot {
    // The page's kind, as its entry says it: a number, since any list can be searched, also one whose entry is of no kind there is.
    pub kind: u64,
    // The byte's place among the lent bytes.
    pub place: usize,
}

// The address of the page that a byte lies on; of an entry, its page address.
#[tactic(auto, unfolding(crate::specs::Pages::page_of))]
pub fn page_of(n: u64) -> u64
    ensures { result ≡ page_of n }
{
    n / (PAGE_BYTES as u64) * (PAGE_BYTES as u64)
}

#[tactic(auto, unfolding(crate::specs::Pages::kind_of))]
fn kind_of(entry: u64) -> u64
    ensures { result ≡ kind_of entry }
{
    entry % (PAGE_BYTES as u64)
}

#[tactic(auto, unfolding(crate::specs::Pages::wrong_length))]
fn wrong_length(entries: usize, lent: usize) -> bool
    ensures { result ≡ wrong_length entries lent }
{
    PAGE_LIMIT < entries || lent != PAGE_BYTES * entries
}

fn bad_kind(entry: u64) -> bool
    ensures { result ≡ bad_kind_of entry }
{
    let kind = kind_of(entry);
    kind == 0 || 3 < kind
}

// These three stand by themselves: with the chains in `check_list` and `repeated` the prover gives up there.
fn any_bad_kind(pages: &[u64]) -> bool
    ensures { result ≡ list_any bad_kind_of pages.now }
{
    pages.iter().any(|entry| bad_kind(*entry))
}

#[tactic(auto, unfolding(crate::specs::Pages::bad_address))]
fn bad_address(entry: u64) -> bool
    ensures { result ≡ bad_address_of entry }
{
    !canonical(page_of(entry))
}

fn any_bad_address(pages: &[u64]) -> bool
    ensures { result ≡ list_any bad_address_of pages.now }
{
    pages.iter().any(|entry| bad_address(*entry))
}

#[tactic(auto, unfolding(crate::specs::Pages::on_page))]
fn on_page(page: u64, entry: u64) -> bool
    ensures { result ≡ on_page_of page entry }
{
    page_of(entry) == page
}

fn any_on_page(page: u64, pages: &[u64]) -> bool
    ensures { result ≡ list_any (on_page_of page) pages.now }
{
    pages.iter().any(|entry| on_page(page, *entry))
}

// Whether an entry's page address is also that of a later one.
#[tactic(auto, using(crate::proofs::Steps::repeated_turn, crate::proofs::Steps::repeated_end, crate::proofs::Steps::rest_any))]
fn repeated(pages: &[u64]) -> bool
    ensures { result ≡ repeated_of pages.now }
{
    for (i, entry) in pages.iter().enumerate() {
        if any_on_page(page_of(*entry), &pages[i + 1..]) {
            return true;
        }
    }
    false
}

// Tests a page list with the number of bytes lent for it. Each rule is tested over the whole list before the next.
#[tactic(auto, unfolding(crate::specs::Pages::listing))]
pub fn check_list(pages: &[u64], lent: usize) -> Result<(), ListError>
    ensures { result ≡ listing pages.now lent }
{
    if wrong_length(pages.len(), lent) {
        return Err(ListError::BadLength);
    }
    if any_bad_kind(pages) {
        return Err(ListError::BadKind);
    }
    if any_bad_address(pages) {
        return Err(ListError::BadAddress);
    }
    if repeated(pages) {
        return Err(ListError::Repeated);
    }
    Ok(())
}

// Where an address on the i-th entry's page leads. A page that was not lent whole counts as not listed.
#[tactic(auto, unfolding(crate::specs::Pages::in_page))]
fn in_page(i: usize, entry: u64, lent: usize, address: u64) -> Option<Spot>
    ensures { result ≡ in_page i entry lent address }
{
    if i < lent / PAGE_BYTES {
        let offset = (address as usize) % PAGE_BYTES;
        Some(Spot {
            kind: kind_of(entry),
            place: PAGE_BYTES * i + offset,
        })
    } else {
        None
    }
}

// What an address leads to, where `lent` bytes are lent for these pages: none where it is on no listed page.
#[tactic(auto, unfolding(crate::specs::Pages::spot), using(crate::proofs::Steps::spot_turn, crate::proofs::Steps::spot_end))]
pub fn find(pages: &[u64], lent: usize, address: u64) -> Option<Spot>
    ensures { result ≡ spot pages.now lent address }
{
    let page = page_of(address);
    for (i, entry) in pages.iter().enumerate() {
        if on_page(page, *entry) {
            return in_page(i, *entry, lent, address);
        }
    }
    None
}
