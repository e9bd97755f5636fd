// A sheet into lent buffers: the whole text is judged before anything is written.
ghost use Rattle.std.specs.Prelude.{◌≡◌, ◌*◌, ◌≤◌, length};
ghost use Rattle.pages.specs.Pages.{page_bytes, page_limit};
ghost use Rattle.instructions.specs.Instruction.{instruction_words};
ghost use Rattle.processor.specs.Layout.{fields};
ghost use Rattle.state_words.specs.Formed.{good_state};
ghost use Rattle.sheet.specs.declared.line.Line.TheVariants.{State as StateLine};
ghost use Rattle.sheet.specs.Lent.{tested};
ghost use Rattle.sheet_read.specs.Scan.{values_on, run_at, room_for};
ghost use Rattle.sheet_read.specs.Reads.{filled, delivered, reads};
ghost use Rattle.sheet_read.specs.declared.buffers.ReadError.TheVariants.{Refused, NoSheet as NoSheetError};

use crate::fill::fill_pages;
use crate::row::Row;
use crate::scan::{NoSheet, scan_sheet};
use crate::shape::Shape;
use instructions::INSTRUCTION_WORDS;
use memory::{PAGE_BYTES, PAGE_LIMIT};
use processor::{FIELDS, Refusal};
use state_words::good_state;

// How many pages, bytes and words a run has.
#[derive(Clone, Copy)]
pub struct Sizes {
    pub pages: usize,
    pub bytes: usize,
    pub words: usize,
}

// Why a text is not read; every buffer is then as it was.
#[derive(Clone, Copy)]
pub enum ReadError {
    // The text is no sheet: the first line, from 1, that cannot begin or continue one.
    NoSheet(usize),
    // The run is refused before its first step.
    Refused(Refusal),
    // A buffer is too short; this is what the run takes.
    TooLong(Sizes),
}

impl From<NoSheet> for ReadError {
    ghost from_gives = { λ n e. e ≡ NoSheetError n.line };

    fn from(no_sheet: NoSheet) -> ReadError {
        ReadError::NoSheet(no_sheet.line)
    }
}

impl From<Refusal> for ReadError {
    ghost from_gives = { λ r e. e ≡ Refused r };

    fn from(refusal: Refusal) -> ReadError {
        ReadError::Refused(refusal)
    }
}

// Whether the state is in range.
fn is_good(state: Row<'_>) -> bool
    requires { state.kind ≡ StateLine }
    ensures { result ≡ good_state (values_on state.entry) }
{
    let mut fields = [0u64; FIELDS];
    state.fill(&mut fields, 0);
    good_state(&fields)
}

// The tests before a run: refusals 1, 2, 3, 4, 5 and 7. More pages than may be listed are not copied, and refused at once.
fn judge(shape: Shape<'_>) -> Result<(), Refusal>
    ensures { result ≡ tested (run_at shape.entry) }
{
    let pages = shape.pages.count;
    if PAGE_LIMIT < pages {
        return Err(Refusal::Length);
    }
    let good = is_good(shape.state);
    let mut entries = [0u64; PAGE_LIMIT];
    shape.pages.fill(&mut entries);
    replay::check(
        &entries[..pages],
        PAGE_BYTES * pages,
        good,
        INSTRUCTION_WORDS * shape.steps.count,
    )
}

// Whether every part fits its buffer: one of this length for the state, and of those sizes for the rest.
fn fits(sizes: Sizes, state: usize, room: Sizes) -> bool
    ensures { result ≡ room_for sizes state room }
{
    FIELDS <= state
        && sizes.pages <= room.pages
        && sizes.bytes <= room.bytes
        && sizes.words <= room.words
}

// Every part to the front of its buffer. The four stay parameters: of a struct that holds each `&mut` the contracts would have to say besides
// that it is the buffer that was lent.
fn fill_all(
    shape: Shape<'_>,
    state: &mut [u64],
    pages: &mut [u64],
    bytes: &mut [u8],
    words: &mut [u64],
)
    requires { (fields ≤ length state.old) × (shape.pages.count ≤ length pages.old) × (page_bytes * shape.pages.count ≤ length bytes.old) × (instruction_words * shape.steps.count ≤ length words.old) }
    ensures { record { state = state.new; pages = pages.new; bytes = bytes.new; words = words.new } ≡ filled (run_at shape.entry) (record { state = state.old; pages = pages.old; bytes = bytes.old; words = words.old }) }
{
    shape.state.fill(state, 0);
    shape.pages.fill(pages);
    fill_pages(shape.pages, bytes);
    shape.steps.fill(words);
}

// A run that passed its tests, where every part fits.
fn load(
    shape: Shape<'_>,
    state: &mut [u64],
    pages: &mut [u64],
    bytes: &mut [u8],
    words: &mut [u64],
) -> Result<Sizes, ReadError>
    requires { shape.pages.count ≤ page_limit }
    ensures { record { answer = result; buffers = record { state = state.new; pages = pages.new; bytes = bytes.new; words = words.new } } ≡ delivered (run_at shape.entry) (record { state = state.old; pages = pages.old; bytes = bytes.old; words = words.old }) }
{
    let sizes = Sizes {
        pages: shape.pages.count,
        bytes: PAGE_BYTES * shape.pages.count,
        words: INSTRUCTION_WORDS * shape.steps.count,
    };
    let room = Sizes {
        pages: pages.len(),
        bytes: bytes.len(),
        words: words.len(),
    };
    if !fits(sizes, state.len(), room) {
        return Err(ReadError::TooLong(sizes));
    }
    fill_all(shape, state, pages, bytes, words);
    Ok(sizes)
}

// Reads a sheet: every part of the run goes to the front of its buffer, and what lies past it stays. A read that is refused leaves
// every buffer as it was. The four buffers come one by one from the C interface, and stay so, as pages and bytes do in `memory`.
pub fn read(
    text: &[u8],
    state: &mut [u64],
    pages: &mut [u64],
    bytes: &mut [u8],
    words: &mut [u64],
) -> Result<Sizes, ReadError>
    ensures { record { answer = result; buffers = record { state = state.new; pages = pages.new; bytes = bytes.new; words = words.new } } ≡ reads text.now (record { state = state.old; pages = pages.old; bytes = bytes.old; words = words.old }) }
{
    let shape = scan_sheet(text)?;
    judge(shape)?;
    load(shape, state, pages, bytes, words)
}
