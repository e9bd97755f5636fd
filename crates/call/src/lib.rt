// Near CALL.
#![tactic(auto)]

ghost use Rattle.std.specs.Prelude.{◌≡◌};
ghost use Rattle.accesses.specs.Access.{lookup_of};
ghost use Rattle.processor.specs.Prog.{operate};
ghost use Rattle.processor.specs.Outcomes.{ended_by, step_of};
ghost use Rattle.call.specs.Frame.{frame_of};
ghost use Rattle.call.specs.Call.{pushes_frame, call};

use processor::{Fault, State, Vector, fault};
use stores::{Store, store_all};
use targets::{in_code, pushed, runs_past};

// The push on the shadow stack, and SSP after it.
#[derive(Clone, Copy)]
struct Frame {
    store: Store,
    ssp: u64,
}

// Whether the call pushes on the shadow stack.
#[tactic(auto, unfolding(crate::specs::Call::pushes_frame))]
fn pushes_frame(state: State, framed: bool) -> bool
    ensures { result ≡ pushes_frame state framed }
{
    state.enabled() && framed
}

// What the call does to the shadow stack, where it pushes on it.
#[tactic(auto, unfolding(crate::specs::Frame::frame_of))]
fn make_frame(state: State, framed: bool, next: u64) -> Option<Frame>
    ensures { result ≡ frame_of state framed next }
{
    if !pushes_frame(state, framed) {
        return None;
    }
    let size = pushed(state);
    let ssp = state.minus(state.ssp, size.bytes());
    let store = Store {
        access: state.shadow(ssp, size, true),
        value: next,
    };
    Some(Frame { store, ssp })
}

// The call to a target, of a form that makes a shadow frame or of the one that does not; whoever calls this says which. A relative call
// has the target that `relative` gives, and its form makes a frame where it is `displaced`; that of an absolute call always does.
pub fn execute(
    state: State,
    pages: &[u64],
    bytes: &mut [u8],
    target: u64,
    framed: bool,
    span: u64,
) -> Result<State, Fault>
    ensures { step_of (ended_by state result) bytes.new ≡ operate (lookup_of pages.now bytes.old) (call target framed span state) state bytes.old }
{
    if !in_code(state, target) {
        return Err(fault(Vector::Protection));
    }
    let size = pushed(state);
    let sp = state.minus(state.sp, size.bytes());
    if runs_past(state, sp) {
        return Err(fault(Vector::Stack));
    }
    let next = state.next(span);
    let push = Store {
        access: state.ordinary(sp, size, true),
        value: next,
    };
    let ssp = match make_frame(state, framed, next) {
        Some(frame) => {
            store_all(&[push, frame.store], pages, bytes)?;
            frame.ssp
        }
        None => {
            store_all(&[push], pages, bytes)?;
            state.ssp
        }
    };
    Ok(State {
        sp,
        ssp,
        ip: target,
        ..state
    })
}
