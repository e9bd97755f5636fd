// Near RET: back to the address on top of the stack.
#![tactic(auto)]

ghost use Rattle.std.specs.Prelude.{◌≡◌};
ghost use Rattle.accesses.specs.Access.{lookup_of};
ghost use Rattle.processor.specs.Prog.{interp, operate};
ghost use Rattle.processor.specs.Outcomes.{ended_by, step_of};
ghost use Rattle.processor.specs.Popped.{result_of};
ghost use Rattle.ret.specs.Ret.{new_ssp, ret};

use processor::{Fault, State, Vector, control_fault, fault};
use targets::{in_code, pushed, runs_past};

// Pops the shadow stack where it is enabled; what is popped must be the target.
fn new_ssp(state: State, pages: &[u64], bytes: &[u8], target: u64) -> Result<u64, Fault>
    ensures { result_of result bytes.now ≡ interp (lookup_of pages.now bytes.now) (new_ssp state target) bytes.now }
{
    if !state.enabled() {
        return Ok(state.ssp);
    }
    let size = pushed(state);
    let access = state.shadow(state.ssp, size, false);
    let frame = memory::load(access, pages, bytes)?;
    if frame != target {
        return Err(control_fault(1));
    }
    Ok(state.plus(state.ssp, size.bytes()))
}

// `count` is how many bytes SP moves past the return address.
pub fn execute(state: State, pages: &[u64], bytes: &[u8], count: u64) -> Result<State, Fault>
    ensures { step_of (ended_by state result) bytes.now ≡ operate (lookup_of pages.now bytes.now) (ret count state) state bytes.now }
{
    if runs_past(state, state.sp) {
        return Err(fault(Vector::Stack));
    }
    let size = pushed(state);
    let access = state.ordinary(state.sp, size, false);
    let target = memory::load(access, pages, bytes)?;
    let ssp = new_ssp(state, pages, bytes, target)?;
    if !in_code(state, target) {
        return Err(fault(Vector::Protection));
    }
    Ok(State {
        sp: state.plus(state.plus(state.sp, size.bytes()), count),
        ssp,
        ip: target,
        ..state
    })
}
