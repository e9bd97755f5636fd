// Lines of one kind, one behind the other.
ghost use Rattle.std.specs.Prelude.{◌*◌, ◌<◌, ◌≤◌, ◌^◌};
ghost use Rattle.texts.specs.Fields.{lines};
ghost use Rattle.sheet.specs.Lines.{width};
ghost use Rattle.sheet.specs.Reading.{plain_count};

use crate::row::Row;
use sheet::Line;

// A text that begins with so many lines of this kind.
#[derive(Clone, Copy)]
pub(crate) struct Stage<'a> {
    pub kind: Line,
    pub text: &'a [u8],
    pub count: usize,
    ghost stands: { count ≤ plain_count kind (lines text.now) },
    ghost room: { width kind * count < 2 ^ 64 },
}

impl<'a> Stage<'a> {
    ghost use Rattle.std.specs.Prelude.{◌≡◌, length, drop};
    ghost use Rattle.numbers.specs.Buffers.{laid};
    ghost use Rattle.sheet.specs.Lines.{field_count};
    ghost use Rattle.sheet_read.specs.Scan.{numbers_in};

    // The k-th line.
    pub(crate) fn row(self, k: usize) -> Row<'a>
        requires { k < self.count }
        ensures kind { result.kind ≡ self.entry.kind }
        ensures text { result.text.now ≡ drop (width self.entry.kind * k) self.entry.text.now }
    {
        Row {
            kind: self.kind,
            text: &self.text[self.kind.width() * k..],
        }
    }

    // The text behind them.
    pub(crate) fn behind(self) -> &'a [u8]
        ensures { result.now ≡ drop (width self.entry.kind * self.entry.count) self.entry.text.now }
    {
        &self.text[self.kind.width() * self.count..]
    }

    // All numbers on them, to the front of a buffer.
    pub(crate) fn fill(self, out: &mut [u64])
        requires { field_count self.kind * self.count ≤ length out.old }
        ensures { out.new ≡ laid out.old 0 (numbers_in self.entry) }
    {
        for k in 0..self.count {
            self.row(k).fill(out, self.kind.count() * k);
        }
    }
}
