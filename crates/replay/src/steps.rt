// What is tested of an input before any step, and one instruction by itself.
ghost use Rattle.std.specs.Prelude.{◌≡◌};
ghost use Rattle.processor.specs.Outcomes.{step_of};
ghost use Rattle.instructions.specs.Instruction.{alone};
ghost use Rattle.replay.specs.Run.{input_of, bad_words, check_by, stepped};

use instructions::{INSTRUCTION_WORDS, Instruction};
use memory::check_list;
use perform::perform;
use processor::{Outcome, Refusal, State};

// How many instructions a run may have.
pub const INSTRUCTION_LIMIT: usize = 1024;

// Whether a list has not four words to each instruction, or too many instructions.
#[tactic(auto, unfolding(crate::specs::Run::bad_words))]
fn bad_words(words: usize) -> bool
    ensures { result ≡ bad_words words }
{
    words % INSTRUCTION_WORDS != 0 || words / INSTRUCTION_WORDS > INSTRUCTION_LIMIT
}

// Refusals 1, 2, 3, 4, 5 and 7, in this order: `good` is whether the state is in range, `lent` and `words` are how many bytes and
// words there are.
#[tactic(auto, unfolding(crate::specs::Run::check_by))]
pub fn check(pages: &[u64], lent: usize, good: bool, words: usize) -> Result<(), Refusal>
    ensures { result ≡ check_by pages.now lent good words }
{
    check_list(pages, lent)?;
    if !good {
        return Err(Refusal::State);
    }
    if bad_words(words) {
        return Err(Refusal::Words);
    }
    Ok(())
}

// One instruction on any state, page list and bytes, with every refusal that it can have.
#[tactic(auto, unfolding(crate::specs::Run::step, crate::specs::Run::check, instructions::specs::Instruction::instruction_at))]
pub fn step(step: Instruction, state: State, pages: &[u64], bytes: &mut [u8]) -> Outcome
    ensures { step_of result bytes.new ≡ stepped (input_of state pages.now bytes.old (alone step)) }
{
    match check(pages, bytes.len(), state.in_range(), INSTRUCTION_WORDS) {
        Ok(()) => perform(step, state, pages, bytes),
        Err(refusal) => state.refuse(refusal),
    }
}
