// What the word lines hold, copied into a lent buffer.
ghost use Rattle.std.specs.Prelude.{◌≡◌, ◌+◌, ◌*◌, ◌≤◌, length};
ghost use Rattle.pages.specs.Pages.{page_bytes, page_of};
ghost use Rattle.numbers.specs.Buffers.{laid};
ghost use Rattle.texts.specs.Fields.{lines};
ghost use Rattle.sheet.specs.Sheets.{slots, bytes_of};
ghost use Rattle.sheet.specs.Reading.{slot_bytes, past_slots, pages_in};
ghost use Rattle.sheet.specs.declared.line.Line.TheVariants.{Page as PageLine};
ghost use Rattle.sheet_read.specs.Scan.{numbers_in, behind};

use crate::stage::Stage;
use crate::words::Words;
use memory::{PAGE_BYTES, Size, page_of};
use sheet::SLOTS;

// The bytes of an entry's page, from a place of a buffer on; their lines are taken. It walks as `Words::skip_page` does: of a closure that
// wrote `bytes` a proof would know nothing.
fn fill_page(words: &mut Words<'_>, entry: u64, bytes: &mut [u8], at: usize)
    requires { at + page_bytes ≤ length bytes.old }
    ensures left { lines words.new.text.now ≡ past_slots (page_of entry) slots (lines words.old.text.now) }
    ensures filled { bytes.new ≡ laid bytes.old at (slot_bytes (page_of entry) slots (lines words.old.text.now)) }
{
    let base = page_of(entry);
    for slot in 0..SLOTS {
        let value = words.value(base + 8 * slot as u64);
        numbers::store(bytes, at + 8 * slot, Size::Eight, value);
    }
}

// The bytes of all pages, whose word lines stand behind them.
pub(crate) fn fill_pages(pages: Stage<'_>, bytes: &mut [u8])
    requires { (pages.kind ≡ PageLine) × (page_bytes * pages.count ≤ length bytes.old) }
    ensures { bytes.new ≡ laid bytes.old 0 (bytes_of (pages_in (numbers_in pages.entry) (behind pages.entry))) }
{
    let mut words = Words {
        text: pages.behind(),
        count: 0,
    };
    for k in 0..pages.count {
        fill_page(&mut words, pages.row(k).number(0), bytes, PAGE_BYTES * k);
    }
}
