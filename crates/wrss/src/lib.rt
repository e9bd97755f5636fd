// WRSSD and WRSSQ: write to the shadow stack.
#![tactic(auto)]

ghost use Rattle.std.specs.Prelude.{◌≡◌};
ghost use Rattle.accesses.specs.Access.{lookup_of};
ghost use Rattle.processor.specs.Prog.{operate};
ghost use Rattle.processor.specs.Outcomes.{ended_by, step_of};
ghost use Rattle.wrss.specs.Wrss.{wrss as wrss_of};

use memory::Size;
use processor::{Fault, State, Vector};

// `permitted` is whether WR_SHSTK_EN is set for this CPL, as `State::permitted` says. The operation does not read that bit itself, so
// that whether it is set can alter nothing else.
pub fn execute(
    state: State,
    permitted: bool,
    pages: &[u64],
    bytes: &mut [u8],
    size: Size,
    a: u64,
    b: u64,
    span: u64,
) -> Result<State, Fault>
    ensures { step_of (ended_by state result) bytes.new ≡ operate (lookup_of pages.now bytes.old) (wrss_of size permitted a b span state) state bytes.old }
{
    if !state.usable() || !permitted {
        return Err(processor::fault(Vector::InvalidOpcode));
    }
    if a % size.bytes() != 0 {
        return Err(processor::fault(Vector::Protection));
    }
    memory::store(state.shadow(a, size, true), pages, bytes, b)?;
    Ok(State {
        ip: state.next(span),
        ..state
    })
}
