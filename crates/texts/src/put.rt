// Writing a line into a text.
ghost use Rattle.std.specs.Prelude.{◌≡◌, ◌∷◌, ◌+◌, ◌≤◌, length};
ghost use Rattle.numbers.specs.Numbers.{inside};
ghost use Rattle.numbers.specs.Buffers.{laid, laid_if};
ghost use Rattle.texts.specs.Digits.{hex, number, tab};
ghost use Rattle.texts.specs.Fields.{fields as fields_of, line_of};

use crate::digits::{DIGITS, digit};
use numbers::{copy, has_room};

// How many bytes a number has with the tab before it.
pub const FIELD: usize = 18;

// Writes the digits of a number, lowest first, so that each is a remainder.
fn put_digits(v: u64, text: &mut [u8], at: usize)
    requires { at + 16 ≤ length text.old }
    ensures { text.new ≡ laid text.old at (hex 16 v) }
{
    let mut rest = v;
    for place in (0..DIGITS).rev() {
        text[at + place] = digit(rest % 16);
        rest /= 16;
    }
}

// Writes a tab and a number.
fn put_field(v: u64, text: &mut [u8], at: usize)
    requires { at + 18 ≤ length text.old }
    ensures { text.new ≡ laid text.old at (tab ∷ number v) }
{
    copy(b"\tx", text, at);
    put_digits(v, text, at + 2);
}

fn put_fields(values: &[u64], text: &mut [u8], at: usize)
    requires { at + length (fields_of values.now) ≤ length text.old }
    ensures { text.new ≡ laid text.old at (fields_of values.now) }
{
    for (i, &value) in values.iter().enumerate() {
        put_field(value, text, at + FIELD * i);
    }
}

// Writes a line of any name with these numbers from a place on, or nothing where it does not fit; and says which.
#[tactic(auto, unfolding(numbers::specs::Numbers::inside), using(crate::proofs::Fields::line_long, crate::proofs::Fields::fields_length, numbers::proofs::Laws::laid_unless))]
pub fn put_line(name: &[u8], values: &[u64], text: &mut [u8], at: usize) -> bool
    ensures told { result ≡ inside (length text.old) at (length (line_of name.now values.now)) }
    ensures put { text.new ≡ laid_if text.old at (line_of name.now values.now) }
{
    // A quotient, since the product of a long list could wrap.
    if text.len() / FIELD < values.len() {
        return false;
    }
    let ended = name.len() + FIELD * values.len();
    if !has_room(text.len(), at, ended + 1) {
        return false;
    }
    copy(name, text, at);
    put_fields(values, text, at + name.len());
    copy(b"\n", text, at + ended);
    true
}
