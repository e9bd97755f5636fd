// SAVEPREVSSP: leave a restore token on the previous shadow stack.
#![tactic(auto)]

ghost use Rattle.std.specs.Prelude.{◌≡◌};
ghost use Rattle.accesses.specs.Access.{lookup_of};
ghost use Rattle.processor.specs.Prog.{interp, operate};
ghost use Rattle.processor.specs.Outcomes.{ended_by, step_of};
ghost use Rattle.saveprevssp.specs.Saveprevssp.{carry as carry_of, pop_hole, new_top, saved_token, leave_token, saveprevssp as saveprevssp_of};
ghost use Rattle.processor.specs.Popped.{result_of};

use memory::Size;
use processor::{Fault, State, Vector, fault};
use stores::{Store, store_all};

// CF.
fn carry(state: State) -> bool
    ensures { result ≡ carry_of state }
{
    state.flags % 2 == 1
}

// Pops the 4 bytes of the hole, which must be 0.
fn pop_hole(state: State, pages: &[u64], bytes: &[u8], top: u64) -> Result<u64, Fault>
    ensures { result_of result bytes.now ≡ interp (lookup_of pages.now bytes.now) (pop_hole state top) bytes.now }
{
    let access = state.shadow(top, Size::Four, false);
    let hole = memory::load(access, pages, bytes)?;
    if hole != 0 {
        return Err(fault(Vector::Protection));
    }
    Ok(state.plus(top, 4))
}

// Pops the hole where CF says that there is one.
fn new_top(state: State, pages: &[u64], bytes: &[u8], top: u64) -> Result<u64, Fault>
    ensures { result_of result bytes.now ≡ interp (lookup_of pages.now bytes.now) (new_top state top) bytes.now }
{
    if !carry(state) {
        return Ok(top);
    }
    if state.is_long() {
        return Err(fault(Vector::Protection));
    }
    pop_hole(state, pages, bytes, top)
}

// Whether the token names a previous shadow stack.
#[tactic(auto, unfolding(crate::specs::Saveprevssp::saved_token))]
fn saved_token(state: State, token: u64) -> bool
    ensures { result ≡ saved_token state token }
{
    token / 2 % 2 == 1 && (state.is_long() || token < 0x1_0000_0000)
}

// With the token popped: checks it, and leaves a restore token on the stack that it names.
fn leave_token(
    state: State,
    pages: &[u64],
    bytes: &mut [u8],
    token: u64,
    span: u64,
) -> Result<State, Fault>
    ensures { step_of (ended_by state result) bytes.new ≡ operate (lookup_of pages.now bytes.old) (leave_token token span state) state bytes.old }
{
    let top = new_top(state, pages, bytes, state.plus(state.ssp, 8))?;
    if !saved_token(state, token) {
        return Err(fault(Vector::Protection));
    }
    let old = token - token % 4;
    let zeros = Store {
        access: state.shadow(state.minus(old, 4), Size::Four, true),
        value: 0,
    };
    let restore = Store {
        access: state.shadow(state.minus(old - old % 8, 8), Size::Eight, true),
        value: old + state.long_bit(),
    };
    store_all(&[zeros, restore], pages, bytes)?;
    Ok(State {
        ssp: top,
        ip: state.next(span),
        ..state
    })
}

// Pops the previous-SSP token off the stack.
pub fn execute(state: State, pages: &[u64], bytes: &mut [u8], span: u64) -> Result<State, Fault>
    ensures { step_of (ended_by state result) bytes.new ≡ operate (lookup_of pages.now bytes.old) (saveprevssp_of span state) state bytes.old }
{
    if !state.usable() {
        return Err(fault(Vector::InvalidOpcode));
    }
    if state.ssp % 8 != 0 {
        return Err(fault(Vector::Protection));
    }
    let access = state.shadow(state.ssp, Size::Eight, false);
    let token = memory::load(access, pages, bytes)?;
    leave_token(state, pages, bytes, token, span)
}
