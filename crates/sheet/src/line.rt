// The kinds of line that a sheet has: where one stands in a text, and writing one. A further kind is a case of the enum, of `name` and of
// `count`.
ghost use Rattle.std.specs.Prelude.{◌≡◌, length, drop};
ghost use Rattle.texts.specs.Fields.{begins as begins_with};
ghost use Rattle.sheet.specs.Lines.{name as name_of, field_count, first as first_of, width as width_of, form, fits_line, put_line};

use crate::forms::{begins, fields_stand};
use instructions::INSTRUCTION_WORDS;
use processor::FIELDS;
use texts::{FIELD, put_line};

#[derive(Clone, Copy)]
pub enum Line {
    // The version.
    Sheet,
    // The fields of a state.
    State,
    // A page's entry.
    Page,
    // An address and the value of the 8 bytes there.
    Word,
    // An instruction's words.
    Do,
}

impl Line {
    // How many numbers a line has.
    pub fn count(self) -> usize
        ensures { result ≡ field_count self }
    {
        match self {
            Line::Sheet => 1,
            Line::State => FIELDS,
            Line::Page => 1,
            Line::Word => 2,
            Line::Do => INSTRUCTION_WORDS,
        }
    }

    // What it is called.
    pub fn name(self) -> &'static [u8]
        ensures { result.now ≡ name_of self }
    {
        match self {
            Line::Sheet => b"sheet",
            Line::State => b"state",
            Line::Page => b"page",
            Line::Word => b"word",
            Line::Do => b"do",
        }
    }

    // Where its first number begins, behind the name and a tab.
    pub fn first(self) -> usize
        ensures { result ≡ first_of self }
    {
        self.name().len() + 1
    }

    // How many bytes a line has.
    pub fn width(self) -> usize
        ensures { result ≡ width_of self }
    {
        self.first() + FIELD * self.count()
    }

    // Whether a text begins with a line of this kind: its name, its numbers, a line feed.
    pub fn leads(self, text: &[u8]) -> bool
        ensures { result ≡ begins_with (form self) text.now }
    {
        if text.len() < self.width() {
            return false;
        }
        begins(self.name(), text)
            && fields_stand(self.count(), &text[self.first() - 1..])
            && text[self.width() - 1] == b'\n'
    }

    // Whether a line of this kind stands at a place of a text.
    pub fn stands(self, text: &[u8], at: usize) -> bool
        ensures { result ≡ begins_with (form self) (drop at text.now) }
    {
        at < text.len() && self.leads(&text[at..])
    }

    // Writes a line with these numbers from a place on, or nothing where they are not as many as such a line has, or it does not fit; and
    // says which.
    pub fn put(self, values: &[u64], text: &mut [u8], at: usize) -> bool
        ensures told { result ≡ fits_line self (length values.now) (length text.old) at }
        ensures put { text.new ≡ put_line self values.now text.old at }
    {
        values.len() == self.count() && put_line(self.name(), values, text, at)
    }
}
