// The C interface of sheets: read one into lent buffers, write one into a lent text. Lengths travel with every buffer.
#![tactic(auto)]

ghost use Rattle.std.specs.Prelude.{◌≡◌, ◌∷◌};
ghost use Rattle.sheet_read.specs.Reads.{reads};
ghost use Rattle.driftpocket_sheet.specs.Crossing.{or_no_room, nowhere, size_words, read_report, write_report, crossed_read, crossed_write};

use answers::{NO_ROOM, NO_SHEET};
use numbers::copy;
use sheet::Parts;
use sheet_read::{ReadError, Sizes};
use sheet_write::WriteError;

// How many words the report of a read and of a write has.
const READ_REPORT: usize = 5;

const WRITE_REPORT: usize = 2;

// What is returned with a report that is too short: the refusal, and 8 where there is none.
fn or_no_room(number: u64) -> u64
    ensures { result ≡ or_no_room number }
{
    if number == 0 { NO_ROOM } else { number }
}

// A report with the sizes of a run.
fn sized(refusal: u64, sizes: Sizes) -> [u64; READ_REPORT]
    ensures { result ≡ refusal ∷ 0 ∷ size_words sizes }
{
    [
        refusal,
        0,
        sizes.pages as u64,
        sizes.bytes as u64,
        sizes.words as u64,
    ]
}

// What is reported of a read, and of a write: functions and no `From`, since both sides are types of other crates.
fn read_report(answer: Result<Sizes, ReadError>) -> [u64; READ_REPORT]
    ensures { result ≡ read_report answer }
{
    match answer {
        Ok(sizes) => sized(0, sizes),
        Err(ReadError::NoSheet(line)) => [NO_SHEET, line as u64, 0, 0, 0],
        Err(ReadError::Refused(refusal)) => [refusal.into(), 0, 0, 0, 0],
        Err(ReadError::TooLong(sizes)) => sized(NO_ROOM, sizes),
    }
}

fn write_report(answer: Result<usize, WriteError>) -> [u64; WRITE_REPORT]
    ensures { result ≡ write_report answer }
{
    match answer {
        Ok(long) => [0, long as u64],
        Err(WriteError::Refused(refusal)) => [refusal.into(), 0],
        Err(WriteError::TooLong(long)) => [NO_ROOM, long as u64],
    }
}

// The report of a read into empty buffers.
fn read_nowhere(text: &[u8]) -> [u64; READ_REPORT]
    ensures { result ≡ read_report (reads text.now nowhere).answer }
{
    read_report(sheet_read::read(text, &mut [], &mut [], &mut [], &mut []))
}

// Reads a sheet: 0, or the refusal, 8 last of all, also where `report` is too short; then nothing is written. `report` gets refusal, line,
// and the numbers of pages, bytes and words.
#[tactic(auto, unfolding(crate::specs::Crossing::crossed_read), using(crate::proofs::Laws::read_short, crate::proofs::Laws::read_room))]
#[unsafe(no_mangle)]
pub extern "C" fn driftpocket_sheet_read(
    text: &[u8],
    state: &mut [u64],
    pages: &mut [u64],
    bytes: &mut [u8],
    words: &mut [u64],
    report: &mut [u64],
) -> u64
    ensures { record { number = result; buffers = record { state = state.new; pages = pages.new; bytes = bytes.new; words = words.new }; report = report.new }
        ≡ crossed_read text.now (record { state = state.old; pages = pages.old; bytes = bytes.old; words = words.old }) report.old }
{
    if report.len() < READ_REPORT {
        return or_no_room(read_nowhere(text)[0]);
    }
    let numbers = read_report(sheet_read::read(text, state, pages, bytes, words));
    copy(&numbers, report, 0);
    numbers[0]
}

// Writes a sheet: 0, or the refusal, 8 last of all, also where `report` is too short; then nothing is written. `report` gets refusal and
// length.
#[tactic(auto, unfolding(crate::specs::Crossing::crossed_write), using(crate::proofs::Laws::write_short, crate::proofs::Laws::write_room))]
#[unsafe(no_mangle)]
pub extern "C" fn driftpocket_sheet_write(
    state: &[u64],
    pages: &[u64],
    bytes: &[u8],
    words: &[u64],
    text: &mut [u8],
    report: &mut [u64],
) -> u64
    ensures { record { number = result; text = text.new; report = report.new }
        ≡ crossed_write (record { state = state.now; pages = pages.now; bytes = bytes.now; words = words.now }) text.old report.old }
{
    let parts = Parts {
        state,
        pages,
        bytes,
        words,
    };
    if report.len() < WRITE_REPORT {
        return or_no_room(write_report(sheet_write::write(parts, &mut []))[0]);
    }
    let numbers = write_report(sheet_write::write(parts, text));
    copy(&numbers, report, 0);
    numbers[0]
}
