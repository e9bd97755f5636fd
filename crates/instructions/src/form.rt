// The form that an instruction must have; one that has not gets refusal 6.
ghost use Rattle.std.specs.Prelude.{◌≡◌};
ghost use Rattle.instructions.specs.Instruction.{length_fits, target_fits, release_fits, words_fit, in_mode0, in_mode1, narrow as narrow_of, mode_fits, fits as fits_of};

use crate::instruction::Instruction;
use crate::operation::{Operation, Release, Target};
use memory::Size;

// The first number of more than 32 bits.
const WIDE: u64 = 0x1_0000_0000;

#[tactic(auto, unfolding(crate::specs::Instruction::length_fits))]
fn length_fits(step: Instruction) -> bool
    ensures { result ≡ length_fits step }
{
    1 <= step.length && step.length <= 15
}

// Whether the operand of a call has its bits.
fn target_fits(target: Target, a: u64) -> bool
    ensures { result ≡ target_fits target a }
{
    match target {
        Target::Relative => a < WIDE,
        Target::Absolute => true,
    }
}

// Whether the operand of a return has its bits.
fn release_fits(release: Release, a: u64) -> bool
    ensures { result ≡ release_fits release a }
{
    match release {
        Release::Plain => a == 0,
        Release::Counted => a < 0x1_0000,
    }
}

impl Operation {
    // Whether the words that it does not use are 0, and those that it uses have their bits.
    fn words_fit(self, step: Instruction) -> bool
        ensures { result ≡ words_fit self step }
    {
        match self {
            Operation::Incssp(_) => step.a == 0,
            Operation::Rstorssp => step.b == 0,
            Operation::Saveprevssp => step.a == 0 && step.b == 0,
            Operation::Wrss(_) | Operation::Wruss(_) => true,
            Operation::Call(target) => target_fits(target, step.a) && step.b == 0,
            Operation::Ret(release) => release_fits(release, step.a) && step.b == 0,
        }
    }

    fn in_mode_0(self) -> bool
        ensures { result ≡ in_mode0 self }
    {
        match self {
            Operation::Call(_) | Operation::Ret(_) => false,
            Operation::Incssp(_)
            | Operation::Rstorssp
            | Operation::Saveprevssp
            | Operation::Wrss(_)
            | Operation::Wruss(_) => true,
        }
    }

    fn in_mode_1(self) -> bool
        ensures { result ≡ in_mode1 self }
    {
        match self {
            Operation::Incssp(size) | Operation::Wrss(size) | Operation::Wruss(size) => {
                size == Size::Four
            }
            Operation::Rstorssp | Operation::Saveprevssp | Operation::Call(_) | Operation::Ret(_) =>
                true,
        }
    }

    // Whether it has a form of mode 1: none of 8 bytes, and no word of more than 32 bits.
    #[tactic(auto, unfolding(crate::specs::Instruction::narrow))]
    fn narrow(self, step: Instruction) -> bool
        ensures { result ≡ narrow_of self step }
    {
        self.in_mode_1() && step.a < WIDE && step.b < WIDE
    }

    #[tactic(auto, unfolding(crate::specs::Instruction::mode_fits))]
    fn mode_fits(self, step: Instruction, mode: u64) -> bool
        ensures { result ≡ mode_fits self step mode }
    {
        match mode {
            0 => self.in_mode_0(),
            1 => self.narrow(step),
            _ => true,
        }
    }

    // Whether an instruction of this operation has its form in a mode.
    #[tactic(auto, unfolding(crate::specs::Instruction::fits))]
    pub fn fits(self, step: Instruction, mode: u64) -> bool
        ensures { result ≡ fits_of self step mode }
    {
        self.words_fit(step) && length_fits(step) && self.mode_fits(step, mode)
    }
}
