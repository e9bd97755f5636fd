// A line at the front of a text, and the numbers that stand on it.
ghost use Rattle.std.specs.Prelude.{◌≡◌, true};
ghost use Rattle.texts.specs.Fields.{begins};
ghost use Rattle.sheet.specs.Lines.{form};

use sheet::Line;
use texts::{FIELD, number};

// A text that begins with a line of this kind.
#[derive(Clone, Copy)]
pub(crate) struct Row<'a> {
    pub kind: Line,
    pub text: &'a [u8],
    ghost begun: { begins (form kind) text.now ≡ true },
}

// `of` and `number` are inlined, since rows that are handed over through memory make a read a tenth slower. `of` asks `stands` and not
// `leads`: it tells that no text is left before it counts how wide a line is, which takes four tenths off a read of empty pages.
impl<'a> Row<'a> {
    ghost use Rattle.std.specs.Prelude.{◌+◌, ◌<◌, ◌≤◌, length, take, drop};
    ghost use Rattle.numbers.specs.Buffers.{laid};
    ghost use Rattle.sheet.specs.Lines.{field_count, width};
    ghost use Rattle.sheet.specs.Reading.{value};
    ghost use Rattle.sheet_read.specs.Scan.{IsFirst, values_on};

    // The line with which a text begins, if it is of this kind.
    #[inline(always)]
    pub(crate) fn of(kind: Line, text: &'a [u8]) -> Option<Row<'a>>
        ensures { IsFirst kind text.now result }
    {
        if kind.stands(text, 0) {
            Some(Row { kind, text })
        } else {
            None
        }
    }

    // The i-th number.
    #[inline(always)]
    pub(crate) fn number(self, i: usize) -> u64
        requires { i < field_count self.kind }
        ensures { result ≡ value self.entry.kind i (take (width self.entry.kind) self.entry.text.now) }
    {
        number(self.text, self.kind.first() + FIELD * i).unwrap()
    }

    // The text behind it.
    pub(crate) fn behind(self) -> &'a [u8]
        ensures { result.now ≡ drop (width self.entry.kind) self.entry.text.now }
    {
        &self.text[self.kind.width()..]
    }

    // All its numbers, from a place of a buffer on.
    pub(crate) fn fill(self, out: &mut [u64], at: usize)
        requires { at + field_count self.kind ≤ length out.old }
        ensures { out.new ≡ laid out.old at (values_on self.entry) }
    {
        for i in 0..self.kind.count() {
            out[at + i] = self.number(i);
        }
    }
}
