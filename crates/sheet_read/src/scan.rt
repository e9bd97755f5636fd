// Judging a text: where the lines of each kind stand and how many they are, or the first line that no sheet has. Nothing is written.
ghost use Rattle.std.specs.Prelude.{◌≡◌, length};
ghost use Rattle.texts.specs.Fields.{lines};
ghost use Rattle.sheet.specs.Reading.{plain_count, page_count, past_pages};
ghost use Rattle.sheet.specs.declared.line.Line.TheVariants.{Page as PageLine};
ghost use Rattle.sheet_read.specs.Scan.{Found, Passed, Scanned};

use crate::row::Row;
use crate::shape::Shape;
use crate::stage::Stage;
use crate::words::Words;
use order::page_number;
use sheet::{Line, VERSION};

// No sheet: the first line, from 1, that cannot begin or continue one.
#[derive(Clone, Copy)]
pub(crate) struct NoSheet {
    pub line: usize,
}

// The page lines with which a text begins, up to the first whose address is not above the one before it.
fn scan_pages(text: &[u8]) -> Stage<'_>
    ensures { Found PageLine (page_count 0 (lines text.now)) text.now result }
{
    let mut count = 0;
    let mut least = 0;
    let mut rest = text;
    while let Some(row) = Row::of(Line::Page, rest) {
        let number = page_number(row.number(0));
        if number < least {
            break;
        }
        least = number + 1;
        count += 1;
        rest = row.behind();
    }
    Stage {
        kind: Line::Page,
        text,
        count,
    }
}

// What is left behind the word lines of these pages.
fn scan_words(pages: Stage<'_>) -> Words<'_>
    requires { pages.kind ≡ PageLine }
    ensures { Passed pages.entry result }
{
    let mut words = Words {
        text: pages.behind(),
        count: 0,
    };
    for k in 0..pages.count {
        words.skip_page(pages.row(k).number(0));
    }
    words
}

// The lines of a kind with which a text begins. One loop with `scan_pages` would take a closure that keeps `least` from line to line, which is
// no plainer than these three lines.
fn scan_plain(kind: Line, text: &[u8]) -> Stage<'_>
    ensures { Found kind (plain_count kind (lines text.now)) text.now result }
{
    let mut count = 0;
    let mut rest = text;
    while let Some(row) = Row::of(kind, rest) {
        count += 1;
        rest = row.behind();
    }
    Stage { kind, text, count }
}

// What a text is: a sheet of one version, with nothing left over, or none. Each part begins where the one before it ends.
pub(crate) fn scan_sheet(text: &[u8]) -> Result<Shape<'_>, NoSheet>
    ensures { Scanned text.now result }
{
    let first = Row::of(Line::Sheet, text).ok_or(NoSheet { line: 1 })?;
    if first.number(0) != VERSION {
        return Err(NoSheet { line: 1 });
    }
    let state = Row::of(Line::State, first.behind()).ok_or(NoSheet { line: 2 })?;
    let pages = scan_pages(state.behind());
    let words = scan_words(pages);
    let steps = scan_plain(Line::Do, words.text);
    if !steps.behind().is_empty() {
        return Err(NoSheet {
            line: 3 + pages.count + words.count + steps.count,
        });
    }
    Ok(Shape {
        state,
        pages,
        steps,
    })
}
