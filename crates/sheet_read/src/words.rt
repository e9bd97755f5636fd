// The word lines with which a text begins, taken one by one by the addresses that they may be of.
ghost use Rattle.std.specs.Prelude.{◌+◌, ◌*◌, ◌<◌, ◌^◌, length};
ghost use Rattle.sheet.specs.Lines.{width};
ghost use Rattle.sheet.specs.declared.line.Line.TheVariants.{Word as WordLine};

use crate::row::Row;
use memory::page_of;
use sheet::{Line, SLOTS};

// The text that is left, and how many lines were taken before it.
#[derive(Clone, Copy)]
pub(crate) struct Words<'a> {
    pub text: &'a [u8],
    pub count: usize,
    ghost room: { width WordLine * count + length text.now < 2 ^ 64 },
}

impl<'a> Words<'a> {
    ghost use Rattle.std.specs.Prelude.{◌≡◌};
    ghost use Rattle.pages.specs.Pages.{page_of};
    ghost use Rattle.texts.specs.Fields.{lines};
    ghost use Rattle.sheet.specs.Sheets.{slots, line_count};
    ghost use Rattle.sheet.specs.Reading.{slot_value, past_slot, past_slots};
    ghost use Rattle.sheet_read.specs.Scan.{slot_count};

    // The value at an address: that of the next line, which is taken then, if it is this address's and not 0, else 0.
    pub(crate) fn value(&mut self, address: u64) -> u64
        ensures value { result ≡ slot_value address (lines self.old.text.now) }
        ensures left { lines self.new.text.now ≡ past_slot address (lines self.old.text.now) }
        ensures count { self.new.count ≡ self.old.count + line_count result }
    {
        let Some(row) = Row::of(Line::Word, self.text) else {
            return 0;
        };
        if row.number(0) != address {
            return 0;
        }
        let value = row.number(1);
        if value == 0 {
            return 0;
        }
        self.text = row.behind();
        self.count += 1;
        value
    }

    // Takes the lines of the values of an entry's page.
    pub(crate) fn skip_page(&mut self, entry: u64)
        ensures left { lines self.new.text.now ≡ past_slots (page_of entry) slots (lines self.old.text.now) }
        ensures count { self.new.count ≡ self.old.count + slot_count (page_of entry) slots (lines self.old.text.now) }
    {
        let base = page_of(entry);
        for slot in 0..SLOTS {
            self.value(base + 8 * slot as u64);
        }
    }
}
