// Faults, by their parts.
ghost use Rattle.std.specs.Prelude.{◌≡◌};
ghost use Rattle.answers.specs.Answer.{fault_of, plain_fault, control_fault, page_fault};
ghost use Rattle.answers.specs.Blame.{blame};

use crate::answer::{Fault, Vector};
use memory::{Blocked, Failure, Kind};

// A fault, by its parts.
fn raised(vector: Vector, code: u64, address: u64) -> Fault
    ensures { result ≡ fault_of vector code address }
{
    Fault {
        vector,
        code,
        address,
    }
}

// A fault with error code 0 and no address.
pub fn fault(vector: Vector) -> Fault
    ensures { result ≡ plain_fault vector }
{
    raised(vector, 0, 0)
}

// A control protection fault with its error code.
pub fn control_fault(code: u64) -> Fault
    ensures { result ≡ control_fault code }
{
    raised(Vector::Control, code, 0)
}

fn page_fault(address: u64) -> Fault
    ensures { result ≡ page_fault address }
{
    raised(Vector::Page, 0, address)
}

// The fault of an access that cannot be done.
impl From<Blocked> for Fault {
    ghost from_gives = { λ b f. f ≡ blame b.access b.failure };

    fn from(blocked: Blocked) -> Fault {
        match blocked.failure {
            Failure::NotListed(address) | Failure::WrongKind(address) => page_fault(address),
            Failure::NotCanonical => match blocked.access.kind {
                Kind::UserShadow | Kind::SupervisorShadow => fault(Vector::Protection),
                Kind::Ordinary => fault(Vector::Stack),
            },
        }
    }
}
