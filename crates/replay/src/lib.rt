// Whole runs: instructions in words, the refusals of an input and of an instruction, one step and a list of them.
#![tactic(auto)]

mod runs;
mod steps;

pub use instructions::Instruction;
pub use runs::{Replay, run};
pub use state_words::{good_state, state_of};
pub use steps::{INSTRUCTION_LIMIT, check, step};
