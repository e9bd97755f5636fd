// Where calls and returns may go, and how many bytes they push and pop.
#![tactic(auto)]

ghost use Rattle.std.specs.Prelude.{◌≡◌};
ghost use Rattle.targets.specs.Targets.{displacement as displacement_of, displaced as displaced_of, moved as moved_of, relative as relative_of, in_code, pushed as pushed_of, runs_past};

use memory::Size;
use processor::State;

// The displacement as a signed number: the low 32 bits of the operand in two's complement.
#[tactic(auto, unfolding(crate::specs::Targets::displacement))]
fn displacement(a: u64) -> i64
    ensures { result ≡ displacement_of a }
{
    let low = a % 0x1_0000_0000;
    if low < 0x8000_0000 {
        low as i64
    } else {
        low as i64 - 0x1_0000_0000
    }
}

// A pointer moved by a signed number.
fn moved(state: State, from: u64, by: i64) -> u64
    ensures { result ≡ moved_of state from by }
{
    if by < 0 {
        state.minus(from, by.unsigned_abs())
    } else {
        state.plus(from, by.unsigned_abs())
    }
}

// The target of a relative call.
#[tactic(auto, unfolding(crate::specs::Targets::relative))]
pub fn relative(state: State, a: u64, span: u64) -> u64
    ensures { result ≡ relative_of state a span }
{
    moved(state, state.next(span), displacement(a))
}

// Whether a call or a return may go to the target.
#[tactic(auto, unfolding(crate::specs::Targets::in_code))]
pub fn in_code(state: State, target: u64) -> bool
    ensures { result ≡ in_code state target }
{
    if state.is_long() {
        memory::canonical(target)
    } else {
        target <= state.limit
    }
}

// How many bytes each push of a call and each pop of a return has.
pub fn pushed(state: State) -> Size
    ensures { result ≡ pushed_of state }
{
    if state.is_long() {
        Size::Eight
    } else {
        Size::Four
    }
}

// Whether 4 bytes from here on would run past the end of a 32-bit stack; never in mode 2.
#[tactic(auto, unfolding(crate::specs::Targets::runs_past))]
pub fn runs_past(state: State, first: u64) -> bool
    ensures { result ≡ runs_past state first }
{
    !state.is_long() && first > 0xffff_fffc
}

// Whether the displacement of a relative call is other than 0: the low 32 bits of A are not 0.
#[tactic(auto, unfolding(crate::specs::Targets::displaced))]
pub fn displaced(a: u64) -> bool
    ensures { result ≡ displaced_of a }
{
    a % 0x1_0000_0000 != 0
}
