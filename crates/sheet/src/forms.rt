// What a text begins with: a form, in which one mark stands for any digit and every other for itself.
ghost use Rattle.std.specs.Prelude.{◌≡◌, ◌*◌, ◌≤◌, length};
ghost use Rattle.texts.specs.Fields.{field_bytes, field_forms, begins as begins_with, fits_mark};

use texts::{FIELD, is_digit};

// A mark of a form that stands for any digit.
const ANY_DIGIT: u8 = b'#';

fn fits_mark(mark: u8, c: u8) -> bool
    ensures { result ≡ fits_mark mark c }
{
    if mark == ANY_DIGIT {
        is_digit(c)
    } else {
        c == mark
    }
}

// Whether a text begins with this form. The loop has one way out, as that of `number`.
pub(crate) fn begins(form: &[u8], text: &[u8]) -> bool
    ensures { result ≡ begins_with form.now text.now }
{
    if text.len() < form.len() {
        return false;
    }
    let mut good = true;
    for (mark, c) in form.iter().zip(text) {
        good &= fits_mark(*mark, *c);
    }
    good
}

// Whether a text begins with so many numbers, each behind a tab.
pub(crate) fn fields_stand(n: usize, text: &[u8]) -> bool
    requires { field_bytes * n ≤ length text.now }
    ensures { result ≡ begins_with (field_forms n) text.now }
{
    (0..n).all(|i| begins(b"\tx################", &text[FIELD * i..]))
}
