// A single operation: the form of an instruction, its dispatch, and the permission bits around it.
#![tactic(auto)]

ghost use Rattle.std.specs.Prelude.{◌≡◌, Some};
ghost use Rattle.accesses.specs.Access.{lookup_of};
ghost use Rattle.processor.specs.Prog.{operate};
ghost use Rattle.processor.specs.Outcomes.{step_of, ended_by};
ghost use Rattle.perform.specs.Exec.{or_wrss, perform as perform_of};
ghost use Rattle.perform.specs.Codes.{codes, target as target_of, framed as framed_of, program};

use instructions::{Instruction, Operation, Target, hidden, shown};
use processor::{Fault, Outcome, Refusal, State};

// Where a call goes.
fn call_target(target: Target, step: Instruction, state: State) -> u64
    ensures { result ≡ target_of target step state }
{
    match target {
        Target::Relative => targets::relative(state, step.a, step.length),
        Target::Absolute => step.a,
    }
}

// Whether a call is of a form that makes a shadow frame.
fn framed(target: Target, step: Instruction) -> bool
    ensures { result ≡ framed_of target step }
{
    match target {
        Target::Relative => targets::displaced(step.a),
        Target::Absolute => true,
    }
}

// Runs a well-formed instruction on the state that operations see. Each operation is called from one place, so that it can be inlined.
fn dispatch(
    operation: Operation,
    step: Instruction,
    permitted: bool,
    state: State,
    pages: &[u64],
    bytes: &mut [u8],
) -> Result<State, Fault>
    ensures { step_of (ended_by state result) bytes.new ≡ operate (lookup_of pages.now bytes.old) (or_wrss (Some operation) step permitted state (program operation step state)) state bytes.old }
{
    let Instruction { length, a, b, .. } = step;
    match operation {
        Operation::Incssp(size) => incssp::execute(state, pages, bytes, size, b, length),
        Operation::Rstorssp => rstorssp::execute(state, pages, bytes, a, length),
        Operation::Saveprevssp => saveprevssp::execute(state, pages, bytes, length),
        Operation::Wrss(size) => wrss::execute(state, permitted, pages, bytes, size, a, b, length),
        Operation::Call(target) => {
            let to = call_target(target, step, state);
            call::execute(state, pages, bytes, to, framed(target, step), length)
        }
        Operation::Ret(_) => ret::execute(state, pages, bytes, a),
        Operation::Wruss(size) => wruss::execute(state, pages, bytes, size, a, b, length),
    }
}

// One instruction on a state and the lent bytes; a malformed one, or one of no code that is known, gets refusal 6.
pub fn perform(step: Instruction, state: State, pages: &[u64], bytes: &mut [u8]) -> Outcome
    ensures { step_of result bytes.new ≡ perform_of codes (lookup_of pages.now bytes.old) step state bytes.old }
{
    let operation = match Operation::try_from(step.code) {
        Ok(operation) if operation.fits(step, state.mode) => operation,
        _ => return state.refuse(Refusal::Instruction),
    };
    match dispatch(
        operation,
        step,
        state.permitted(),
        hidden(state),
        pages,
        bytes,
    ) {
        // IP is where the operation has left it.
        Ok(after) => shown(state, after).complete(after.ip),
        Err(fault) => state.fail(fault),
    }
}
