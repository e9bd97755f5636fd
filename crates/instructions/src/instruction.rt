// An instruction, as four words give it.

// How many words an instruction has.
pub const INSTRUCTION_WORDS: usize = 4;

// Its code, its length in bytes, and its two operand words: numbers, so that any four words can be handed in and refused.
#[derive(Clone, Copy)]
pub struct Instruction {
    pub code: u64,
    pub length: u64,
    pub a: u64,
    pub b: u64,
}
