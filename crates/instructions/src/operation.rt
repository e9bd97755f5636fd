// Which operation a code names: the one place where codes are numbers.
ghost use Rattle.std.specs.Prelude.{◌≡◌};
ghost use Rattle.instructions.specs.Operation.{named};

use memory::Size;

// How a near CALL names its target: by a displacement from Next, or by itself.
#[derive(Clone, Copy)]
pub enum Target {
    Relative,
    Absolute,
}

// What a near RET takes off the stack: the return address, or bytes besides, as many as its count says.
#[derive(Clone, Copy)]
pub enum Release {
    Plain,
    Counted,
}

// An operation, with what its code says of its form. The sizes are those of an element or of a store.
#[derive(Clone, Copy)]
pub enum Operation {
    Incssp(Size),
    Rstorssp,
    Saveprevssp,
    Wrss(Size),
    Call(Target),
    Ret(Release),
    Wruss(Size),
}

// A code that names no operation.
#[derive(Clone, Copy)]
pub struct UnknownCode(pub u64);

impl TryFrom<u64> for Operation {
    type Error = UnknownCode;

    ghost try_from_gives = { λ code r. r ≡ named code };

    #[tactic(auto, unfolding(crate::specs::Operation::decoded))]
    fn try_from(code: u64) -> Result<Self, UnknownCode> {
        match code {
            1 => Ok(Operation::Incssp(Size::Four)),
            2 => Ok(Operation::Incssp(Size::Eight)),
            3 => Ok(Operation::Rstorssp),
            4 => Ok(Operation::Saveprevssp),
            5 => Ok(Operation::Wrss(Size::Four)),
            6 => Ok(Operation::Wrss(Size::Eight)),
            7 => Ok(Operation::Call(Target::Relative)),
            8 => Ok(Operation::Call(Target::Absolute)),
            9 => Ok(Operation::Ret(Release::Plain)),
            10 => Ok(Operation::Ret(Release::Counted)),
            11 => Ok(Operation::Wruss(Size::Four)),
            12 => Ok(Operation::Wruss(Size::Eight)),
            _ => Err(UnknownCode(code)),
        }
    }
}
