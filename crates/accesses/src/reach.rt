// Whether bytes can be reached, one by one.
ghost use Rattle.std.specs.Prelude.{◌≡◌, ℕ, Result};
ghost use Rattle.addresses.specs.Address.{wrapped};
ghost use Rattle.pages.specs.Pages.{spot};
ghost use Rattle.accesses.specs.Access.{scan as scan_of, canonical_byte, listed_byte};
ghost use Rattle.accesses.specs.declared.reach.Failure.{Failure};

use addresses::{Width, canonical};
use pages::find;

// Why an access cannot be done.
#[derive(Clone, Copy)]
pub enum Failure {
    // Some byte's address is not canonical.
    NotCanonical,
    // The first byte that cannot be reached is on no listed page.
    NotListed(u64),
    // The first byte that cannot be reached is on a page of another kind.
    WrongKind(u64),
}

pub(crate) fn canonical_byte(address: u64) -> Result<(), Failure>
    ensures { result ≡ canonical_byte address }
{
    if canonical(address) {
        Ok(())
    } else {
        Err(Failure::NotCanonical)
    }
}

// Whether a byte is on a listed page of the kind, which is the number that entries have for it.
pub(crate) fn listed_byte(
    pages: &[u64],
    lent: usize,
    kind: u64,
    address: u64,
) -> Result<(), Failure>
    ensures { result ≡ listed_byte (spot pages.now lent) kind address }
{
    match find(pages, lent, address) {
        None => Err(Failure::NotListed(address)),
        Some(spot) if spot.kind == kind => Ok(()),
        Some(_) => Err(Failure::WrongKind(address)),
    }
}

// Tests n bytes, counting up from the first; the first that fails decides.
#[tactic(auto, using(crate::proofs::Steps::scan_first, crate::proofs::Steps::scan_on, crate::proofs::Steps::scan_end))]
pub(crate) fn scan<F: Fn(u64) -> Result<(), Failure>>(
    test: F,
    width: Width,
    first: u64,
    n: u64,
) -> Result<(), Failure>
    ghost want: { ℕ → Result (Unit {0}) Failure }
    requires callable { F.IsAlwaysCallable test }
    requires tests { (address : ℕ) (r : _) → F.post test address r → r ≡ want address }
    ensures { result ≡ scan_of want width (wrapped width first) n }
{
    for k in 0..n {
        test(width.plus(first, k))?;
    }
    Ok(())
}
