// Hexadecimal digits, and the numbers that they make.
ghost use Rattle.std.specs.Prelude.{◌≡◌, ◌<◌, drop};
ghost use Rattle.texts.specs.Digits.{digit as digit_of, is_digit, digit_value as digit_value_of};
ghost use Rattle.texts.specs.Fields.{numeral};

use numbers::has_room;

// How many digits every number has.
pub(crate) const DIGITS: usize = 16;

// Whether a character is a digit, 0 to 9 or a to f.
#[tactic(auto, unfolding(crate::specs::Digits::is_digit))]
pub fn is_digit(c: u8) -> bool
    ensures { result ≡ is_digit c }
{
    // By `matches!` the loop of `number` is a third slower: its characters are then taken one by one.
    (b'0' <= c && c <= b'9') || (b'a' <= c && c <= b'f')
}

// What a digit stands for; of any other character, some number below 16.
#[tactic(auto, unfolding(crate::specs::Digits::digit_value))]
fn digit_value(c: u8) -> u64
    ensures { result ≡ digit_value_of c }
{
    // By 16 the codes of 0 to 9 leave 0 to 9, those of a to f 1 to 6.
    let moved = if c <= b'9' {
        u64::from(c)
    } else {
        u64::from(c) + 9
    };
    moved % 16
}

// The digit for 0 to 15.
#[tactic(auto, unfolding(crate::specs::Digits::digit))]
pub(crate) fn digit(d: u64) -> u8
    requires { d < 16 }
    ensures { result ≡ digit_of d }
{
    if d < 10 {
        b'0' + d as u8
    } else {
        b'a' + (d - 10) as u8
    }
}

// The number at a place of a text; none where anything else stands there than the letter x and 16 digits. The loop
// has one way out, so that the machine takes several characters at once.
pub fn number(text: &[u8], at: usize) -> Option<u64>
    ensures { result ≡ numeral (drop at text.now) }
{
    if !has_room(text.len(), at, DIGITS + 1) {
        return None;
    }
    let mut good = text[at] == b'x';
    let mut v: u64 = 0;
    for &c in &text[at + 1..at + 1 + DIGITS] {
        good &= is_digit(c);
        v = v * 16 + digit_value(c);
    }
    good.then_some(v)
}
