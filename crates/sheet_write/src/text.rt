// A run into the text of its sheet: nothing is written before the run is judged and the text is known to fit.
ghost use Rattle.std.specs.Prelude.{◌≡◌, ◌*◌, ◌≤◌, Ok};
ghost use Rattle.pages.specs.Pages.{page_limit};
ghost use Rattle.replay.specs.Run.{instruction_limit};
ghost use Rattle.sheet.specs.Lent.{buffers_in, tested};
ghost use Rattle.sheet.specs.Sheets.{slots, text as text_of, saved_of};
ghost use Rattle.sheet_write.specs.Laying.{text_length};
ghost use Rattle.sheet_write.specs.Writes.{printed, writes};
ghost use Rattle.sheet_write.specs.declared.text.WriteError.TheVariants.{Refused as RefusedError};

use crate::lay::lay;
use crate::values::nonzero;
use instructions::INSTRUCTION_WORDS;
use processor::Refusal;
use sheet::{Line, Parts};
use state_words::good_state;

// Why a run is not written; the text is then as it was.
#[derive(Clone, Copy)]
pub enum WriteError {
    // The run is refused before its first step.
    Refused(Refusal),
    // The buffer is too short; the sheet is so long.
    TooLong(usize),
}

impl From<Refusal> for WriteError {
    ghost from_gives = { λ r e. e ≡ RefusedError r };

    fn from(refusal: Refusal) -> WriteError {
        WriteError::Refused(refusal)
    }
}

// How long a sheet is with so many pages, values and instructions.
fn text_length(pages: usize, values: usize, steps: usize) -> usize
    requires { (pages ≤ page_limit) × (values ≤ slots * page_limit) × (steps ≤ instruction_limit) }
    ensures { result ≡ text_length pages values steps }
{
    let head = Line::Sheet.width() + Line::State.width();
    let listed = Line::Page.width() * pages;
    let held = Line::Word.width() * values;
    head + listed + held + Line::Do.width() * steps
}

// Writes a run that is not refused.
fn print(parts: Parts<'_>, text: &mut [u8]) -> Result<usize, WriteError>
    requires { tested (buffers_in parts) ≡ Ok tt }
    ensures { record { answer = result; text = text.new } ≡ printed (text_of (saved_of (buffers_in parts.entry))) text.old }
{
    let steps = parts.words.len() / INSTRUCTION_WORDS;
    let long = text_length(parts.pages.len(), nonzero(parts.bytes), steps);
    if text.len() < long {
        return Err(WriteError::TooLong(long));
    }
    lay(parts, text);
    Ok(long)
}

// Writes a run's sheet to the front of the text, and gives its length. A run that is refused before its first step, and one whose sheet
// does not fit, change nothing.
pub fn write(parts: Parts<'_>, text: &mut [u8]) -> Result<usize, WriteError>
    ensures { record { answer = result; text = text.new } ≡ writes (buffers_in parts.entry) text.old }
{
    let good = good_state(parts.state);
    replay::check(parts.pages, parts.bytes.len(), good, parts.words.len())?;
    print(parts, text)
}
