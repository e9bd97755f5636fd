// The answer to an operation or a run, and the numbers that it stands for.
ghost use Rattle.std.specs.Prelude.{◌≡◌};
ghost use Rattle.answers.specs.Answer.{vector_number, refusal_number, refusal_for, report_of};

use memory::ListError;

// The exceptions that can be raised, each with its number.
#[derive(Clone, Copy)]
pub enum Vector {
    // #UD, invalid opcode.
    InvalidOpcode = 6,
    // #SS, stack fault.
    Stack = 12,
    // #GP, general protection.
    Protection = 13,
    // #PF, page fault.
    Page = 14,
    // #CP, control protection.
    Control = 21,
}

// A fault: its vector, its error code, and for a page fault the address of the byte.
#[derive(Clone, Copy)]
pub struct Fault {
    pub vector: Vector,
    pub code: u64,
    pub address: u64,
}

// Why an input or an instruction is refused, with the number of each refusal.
#[derive(Clone, Copy)]
pub enum Refusal {
    // The page list: its length, a kind, an address, two equal addresses.
    Length = 1,
    Kind = 2,
    Address = 3,
    Repeat = 4,
    // A field of the state.
    State = 5,
    // An instruction's form.
    Instruction = 6,
    // The number of words.
    Words = 7,
}

// The numbers of refusals that belong to no run: a result is longer than the buffer lent for it; a text is no sheet. They are numbers
// and no `Refusal`, since no run answers with them, and the C interface hands them out as numbers.
pub const NO_ROOM: u64 = 8;

pub const NO_SHEET: u64 = 9;

// What an operation or a run answers: one of three, so neither an Option nor a Result.
#[derive(Clone, Copy)]
pub enum Answer {
    Completed,
    Refused(Refusal),
    Faulted(Fault),
}

// An answer in numbers: all 0 where it completed.
#[derive(Clone, Copy)]
pub struct Report {
    pub refusal: u64,
    pub vector: u64,
    pub code: u64,
    pub address: u64,
}

impl From<Vector> for u64 {
    ghost from_gives = { λ v n. n ≡ vector_number v };

    fn from(vector: Vector) -> u64 {
        vector as u64
    }
}

impl From<Refusal> for u64 {
    ghost from_gives = { λ r n. n ≡ refusal_number r };

    fn from(refusal: Refusal) -> u64 {
        refusal as u64
    }
}

// A page list that is wrong is refused.
impl From<ListError> for Refusal {
    ghost from_gives = { λ e r. r ≡ refusal_for e };

    fn from(error: ListError) -> Refusal {
        match error {
            ListError::BadLength => Refusal::Length,
            ListError::BadKind => Refusal::Kind,
            ListError::BadAddress => Refusal::Address,
            ListError::Repeated => Refusal::Repeat,
        }
    }
}

// Nothing to report.
const CLEAR: Report = Report {
    refusal: 0,
    vector: 0,
    code: 0,
    address: 0,
};

impl From<Answer> for Report {
    ghost from_gives = { λ a r. r ≡ report_of a };

    fn from(answer: Answer) -> Report {
        match answer {
            Answer::Completed => CLEAR,
            Answer::Refused(refusal) => Report {
                refusal: refusal.into(),
                ..CLEAR
            },
            Answer::Faulted(fault) => Report {
                vector: fault.vector.into(),
                code: fault.code,
                address: fault.address,
                ..CLEAR
            },
        }
    }
}
