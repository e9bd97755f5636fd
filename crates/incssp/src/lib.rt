// INCSSPD and INCSSPQ: pop elements off the shadow stack.
#![tactic(auto)]

ghost use Rattle.std.specs.Prelude.{◌≡◌};
ghost use Rattle.accesses.specs.Access.{lookup_of};
ghost use Rattle.processor.specs.Prog.{operate};
ghost use Rattle.processor.specs.Outcomes.{ended_by, step_of};
ghost use Rattle.incssp.specs.Incssp.{incssp as incssp_of};

use memory::Size;
use processor::{Fault, State, Vector};

// `size` is that of an element, `b` the count register, of which the low 8 bits count.
pub fn execute(
    state: State,
    pages: &[u64],
    bytes: &[u8],
    size: Size,
    b: u64,
    span: u64,
) -> Result<State, Fault>
    ensures { step_of (ended_by state result) bytes.now ≡ operate (lookup_of pages.now bytes.now) (incssp_of size b span state) state bytes.now }
{
    if !state.usable() {
        return Err(processor::fault(Vector::InvalidOpcode));
    }
    let range = b % 256;
    let n = size.bytes();
    memory::load(state.shadow(state.ssp, size, false), pages, bytes)?;
    if range != 0 {
        let last = state.plus(state.ssp, n * (range - 1));
        memory::load(state.shadow(last, size, false), pages, bytes)?;
    }
    Ok(State {
        ssp: state.plus(state.ssp, n * range),
        ip: state.next(span),
        ..state
    })
}
