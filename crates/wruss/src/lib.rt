// WRUSSD and WRUSSQ: the kernel's write to a user's shadow stack.
#![tactic(auto)]

ghost use Rattle.std.specs.Prelude.{◌≡◌};
ghost use Rattle.accesses.specs.Access.{lookup_of};
ghost use Rattle.processor.specs.Prog.{operate};
ghost use Rattle.processor.specs.Outcomes.{ended_by, step_of};
ghost use Rattle.wruss.specs.Wruss.{recognised as recognised_of, user_store, wruss as wruss_of};

use memory::{Access, Size};
use processor::{Fault, State, Vector};

// Whether the operation is recognised: CR4.CET is enough.
#[tactic(auto, unfolding(crate::specs::Wruss::recognised))]
fn recognised(state: State) -> bool
    ensures { result ≡ recognised_of state }
{
    state.mode != 0 && state.cet == 1
}

// A store to a shadow stack as user code would make it.
fn user_store(state: State, first: u64, size: Size) -> Access
    ensures { result ≡ user_store state first size }
{
    State { cpl: 3, ..state }.shadow(first, size, true)
}

// `size` is that of the store, `a` its address, `b` the value, of which the low bytes count.
pub fn execute(
    state: State,
    pages: &[u64],
    bytes: &mut [u8],
    size: Size,
    a: u64,
    b: u64,
    span: u64,
) -> Result<State, Fault>
    ensures { step_of (ended_by state result) bytes.new ≡ operate (lookup_of pages.now bytes.old) (wruss_of size a b span state) state bytes.old }
{
    if !recognised(state) {
        return Err(processor::fault(Vector::InvalidOpcode));
    }
    if state.cpl != 0 || a % size.bytes() != 0 {
        return Err(processor::fault(Vector::Protection));
    }
    memory::store(user_store(state, a, size), pages, bytes, b)?;
    Ok(State {
        ip: state.next(span),
        ..state
    })
}
