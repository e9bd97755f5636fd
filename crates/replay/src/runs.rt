// A list of instructions, up to the first that is refused or faults.
ghost use Rattle.std.specs.Prelude.{◌≡◌, ◌+◌, ◌*◌, ◌/◌, ◌<◌, length};
ghost use Rattle.accesses.specs.Access.{lookup_of};
ghost use Rattle.instructions.specs.Instruction.{instruction_words, instruction_at};
ghost use Rattle.perform.specs.Codes.{codes};
ghost use Rattle.replay.specs.Run.{input_of, run_from, run_of, replayed};

use crate::steps::check;
use instructions::{INSTRUCTION_WORDS, Instruction};
use perform::perform;
use processor::{Answer, State};

// How many instructions completed, the answer, and the state: from before the instruction that was refused or faulted.
#[derive(Clone, Copy)]
pub struct Replay {
    pub count: usize,
    pub answer: Answer,
    pub state: State,
}

// The k-th instruction of a list.
#[tactic(auto, unfolding(instructions::specs::Instruction::instruction_at))]
fn nth(words: &[u64], k: usize) -> Instruction
    requires { instruction_words * k + 3 < length words.now }
    ensures { result ≡ instruction_at words.now k }
{
    let at = INSTRUCTION_WORDS * k;
    Instruction {
        code: words[at],
        length: words[at + 1],
        a: words[at + 2],
        b: words[at + 3],
    }
}

// Every instruction of an input that passed its tests.
fn walk(mut state: State, pages: &[u64], bytes: &mut [u8], words: &[u64]) -> Replay
    ensures { run_of result bytes.new ≡ run_from codes (lookup_of pages.now bytes.old) (instruction_at words.now) 0 (length words.now / instruction_words) state bytes.old }
{
    let listed = words.len() / INSTRUCTION_WORDS;
    for k in 0..listed {
        let outcome = perform(nth(words, k), state, pages, bytes);
        let answer = outcome.answer;
        state = outcome.state;
        let Answer::Completed = answer else {
            return Replay {
                count: k,
                answer,
                state,
            };
        };
    }
    Replay {
        count: listed,
        answer: Answer::Completed,
        state,
    }
}

// Runs a list from any state, page list, bytes and words whatever. A refusal given before any step leaves all as it was, with count 0.
#[tactic(auto, unfolding(crate::specs::Run::run, crate::specs::Run::check))]
pub fn run(state: State, pages: &[u64], bytes: &mut [u8], words: &[u64]) -> Replay
    ensures { run_of result bytes.new ≡ replayed (input_of state pages.now bytes.old words.now) }
{
    if let Err(refusal) = check(pages, bytes.len(), state.in_range(), words.len()) {
        return Replay {
            count: 0,
            answer: Answer::Refused(refusal),
            state,
        };
    }
    walk(state, pages, bytes, words)
}
