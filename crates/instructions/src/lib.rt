// Instructions in words, which operation a code names, the form of an instruction, and the permission bits.
#![tactic(auto)]

mod form;
mod instruction;
mod operation;
mod permission;

pub use instruction::{INSTRUCTION_WORDS, Instruction};
pub use operation::{Operation, Release, Target, UnknownCode};
pub use permission::{hidden, shown};
