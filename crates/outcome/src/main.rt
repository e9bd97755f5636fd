// The outcome of a sheet: reads a run sheet from standard input, runs it, and writes to standard output how it ended and the run that is
// left. No contract can speak of what is read and written there; `outcome` says what is written for a text.
#![tactic(auto)]

ghost use Rattle.std.specs.Prelude.{◌≡◌, List, ℕ, ◌*◌, ◌≤◌, length, take, drop, IfOk, Ok};
ghost use Rattle.processor.specs.Layout.{words_of};
ghost use Rattle.replay.specs.Run.{input_of};
ghost use Rattle.sheet.specs.Lent.{tested};
ghost use Rattle.sheet.specs.Sheets.{saved_of, text as text_of};
ghost use Rattle.outcome.specs.Outcome.{answer_line, refused_line, answered, outcome as outcome_of};
ghost use Rattle.outcome.specs.Fronts.{Holds};

use answers::{NO_ROOM, NO_SHEET};
use instructions::INSTRUCTION_WORDS;
use memory::{PAGE_BYTES, PAGE_LIMIT};
use processor::{Answer, FIELDS, Refusal, Report, State};
use replay::INSTRUCTION_LIMIT;
use sheet::Parts;
use sheet_read::ReadError;
use std::io;
use std::io::Read;
use texts::{FIELD, put_line};

// The bytes of the longest text that is read: that of as many full pages and instructions as there can be.
const TEXT_LIMIT: usize = 413250;

// The bytes of a line `answer`, with five numbers, and of a line `refused`, with two.
const ANSWER_LINE: usize = 7 + 5 * FIELD;

const REFUSED_LINE: usize = 8 + 2 * FIELD;

// How many bytes of a line and of a sheet are to be written.
#[derive(Clone, Copy)]
struct Fronts {
    line: usize,
    sheet: usize,
}

// A text that is not run.
fn refuse(refusal: u64, row: u64, line: &mut [u8; ANSWER_LINE]) -> Fronts
    ensures { (sheet : List ℕ) → Holds (refused_line refusal row) line.new sheet result }
{
    put_line(b"refused", &[refusal, row], line, 0);
    Fronts {
        line: REFUSED_LINE,
        sheet: 0,
    }
}

// How a run ended.
fn put_answer(count: usize, answer: Answer, line: &mut [u8; ANSWER_LINE]) -> usize
    ensures fits { result ≤ length line.new }
    ensures line { take result line.new ≡ answer_line count answer }
{
    let report: Report = answer.into();
    let values = [
        count as u64,
        report.refusal,
        report.vector,
        report.code,
        report.address,
    ];
    put_line(b"answer", &values, line, 0);
    ANSWER_LINE
}

// The sheet of a run that is not refused, and its length.
fn put_left(
    state: State,
    pages: &[u64],
    bytes: &[u8],
    words: &[u64],
    sheet: &mut [u8; TEXT_LIMIT + 1],
) -> usize
    requires { tested (record { state = words_of state; pages = pages.now; bytes = bytes.now; words = words.now }) ≡ Ok tt }
    ensures fits { result ≤ length sheet.new }
    ensures text { take result sheet.new ≡ text_of (saved_of (record { state = words_of state; pages = pages.now; bytes = bytes.now; words = words.now })) }
{
    let fields: [u64; FIELDS] = state.into();
    let parts = Parts {
        state: &fields,
        pages,
        bytes,
        words,
    };
    // It cannot fail: the run is not refused, and every such sheet has room.
    sheet_write::write(parts, sheet).unwrap_or(0)
}

// The words of so many instructions, which are never more than there are.
#[tactic(auto, using(crate::proofs::RunLaws::nothing_left))]
fn done_words(count: usize, words: usize) -> usize
    ensures { (result ≤ words) × ((list : List ℕ) → length list ≡ words → drop result list ≡ drop (4 * count) list) }
{
    INSTRUCTION_WORDS.saturating_mul(count).min(words)
}

// Runs what passed its tests.
#[tactic(auto, unfolding(crate::specs::Outcome::answered), using(crate::proofs::RunLaws::left_words))]
fn run(
    start: State,
    pages: &[u64],
    bytes: &mut [u8],
    words: &[u64],
    line: &mut [u8; ANSWER_LINE],
    sheet: &mut [u8; TEXT_LIMIT + 1],
) -> Fronts
    requires { tested (record { state = words_of start; pages = pages.now; bytes = bytes.old; words = words.now }) ≡ Ok tt }
    ensures { Holds (answered (input_of start pages.now bytes.old words.now)) line.new sheet.new result }
{
    let replayed = replay::run(start, pages, bytes, words);
    let done = done_words(replayed.count, words.len());
    let sheet = put_left(replayed.state, pages, bytes, &words[done..], sheet);
    let line = put_answer(replayed.count, replayed.answer, line);
    Fronts { line, sheet }
}

// What comes of a text.
fn outcome(text: &[u8], line: &mut [u8; ANSWER_LINE], sheet: &mut [u8; TEXT_LIMIT + 1]) -> Fronts
    ensures { Holds (outcome_of text.now) line.new sheet.new result }
{
    if TEXT_LIMIT < text.len() {
        return refuse(NO_ROOM, 0, line);
    }
    let mut state = [0u64; FIELDS];
    let mut pages = [0u64; PAGE_LIMIT];
    let mut bytes = [0u8; PAGE_LIMIT * PAGE_BYTES];
    let mut words = [0u64; INSTRUCTION_LIMIT * INSTRUCTION_WORDS];
    match sheet_read::read(text, &mut state, &mut pages, &mut bytes, &mut words) {
        Ok(sizes) => {
            // What was read has its ten fields.
            let Some(start) = state_words::state_of(&state) else {
                return refuse(Refusal::State.into(), 0, line);
            };
            run(
                start,
                &pages[..sizes.pages],
                &mut bytes[..sizes.bytes],
                &words[..sizes.words],
                line,
                sheet,
            )
        }
        Err(ReadError::NoSheet(row)) => refuse(NO_SHEET, row as u64, line),
        Err(ReadError::Refused(refusal)) => refuse(refusal.into(), 0, line),
        // This cannot be: there is room for every run that is not refused.
        Err(ReadError::TooLong(_)) => refuse(NO_ROOM, 0, line),
    }
}

// Reads until the buffer is full or the input ends, and says how many bytes that were.
// By `while`: each turn goes on by as many bytes as the reader gave, and not by one.
fn read_full<R: Read>(from: &mut R, out: &mut [u8]) -> io::Result<usize>
    ensures { IfOk result (λ n. n ≤ length out.new) }
{
    let mut n = 0;
    while n < out.len() {
        let got = from.read(&mut out[n..])?;
        if got == 0 {
            break;
        }
        n += got;
    }
    Ok(n)
}

fn main(rt: HostRuntime) -> io::Result<()> {
    let mut text = [0u8; TEXT_LIMIT + 1];
    let n = read_full(&mut rt.stdin(), &mut text)?;
    let mut line = [0u8; ANSWER_LINE];
    let mut sheet = [0u8; TEXT_LIMIT + 1];
    let fronts = outcome(&text[..n], &mut line, &mut sheet);
    rt.write_all(&line[..fronts.line])?;
    rt.write_all(&sheet[..fronts.sheet])
}
