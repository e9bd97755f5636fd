// The C interface: a whole run over lent words and bytes. Lengths travel with every buffer, so that a caller built against another
// state gets a refusal and no stray write.
#![tactic(auto)]

ghost use Rattle.std.specs.Prelude.{ℕ, List, ◌≡◌};
ghost use Rattle.numbers.specs.Buffers.{laid_if};
ghost use Rattle.answers.specs.Answer.{report_of};
ghost use Rattle.driftpocket.specs.Crossing.{report_words, number_of as number_for, unreported, by_tests, crossed};

use answers::NO_ROOM;
use numbers::copy;
use processor::{Answer, FIELDS, Refusal, Report};

// How many words a report has.
const REPORT: usize = 5;

// Writes the report, if it has room.
fn write_report(done: usize, answer: Answer, report: &mut [u64])
    ensures { report.new ≡ laid_if report.old 0 (report_words done (report_of answer)) }
{
    let numbers = Report::from(answer);
    let words = [
        done as u64,
        numbers.refusal,
        numbers.vector,
        numbers.code,
        numbers.address,
    ];
    copy(&words, report, 0);
}

// What is returned for an answer: a function and no `From`, since answer and number are both types of other crates.
fn number(answer: Answer) -> u64
    ensures { result ≡ number_for answer }
{
    match answer {
        Answer::Completed => 0,
        Answer::Refused(refusal) => u64::from(refusal),
        Answer::Faulted(fault) => 256 + u64::from(fault.vector),
    }
}

// A call that runs nothing: the refusal of the tests, or 8 where they are passed.
fn refuse(tested: Result<(), Refusal>, report: &mut [u64]) -> u64
    ensures { (state bytes : List ℕ) → record { number = result; state = state; bytes = bytes; report = report.new }
        ≡ by_tests tested state bytes report.old (unreported state bytes report.old) }
{
    match tested {
        Err(refusal) => {
            write_report(0, Answer::Refused(refusal), report);
            u64::from(refusal)
        }
        Ok(()) => NO_ROOM,
    }
}

// Runs a list of instructions: 0 completed; 1 to 7 the refusal; 8 where it is not refused before its first step but `report` is too
// short, and then nothing is run or written; 256 + vector a fault. `state` holds ten words, in and out; `report` gets count, refusal,
// vector, error code and address.
#[unsafe(no_mangle)]
pub extern "C" fn driftpocket_run(
    state: &mut [u64],
    pages: &[u64],
    bytes: &mut [u8],
    words: &[u64],
    report: &mut [u64],
) -> u64
    ensures { record { number = result; state = state.new; bytes = bytes.new; report = report.new }
        ≡ crossed state.old pages.now bytes.old words.now report.old }
{
    let Some(start) = state_words::state_of(state) else {
        let tested = replay::check(pages, bytes.len(), false, words.len());
        return refuse(tested, report);
    };
    if report.len() < REPORT {
        let tested = replay::check(pages, bytes.len(), start.in_range(), words.len());
        return refuse(tested, report);
    }
    let replayed = replay::run(start, pages, bytes, words);
    copy(&<[u64; FIELDS]>::from(replayed.state), state, 0);
    write_report(replayed.count, replayed.answer, report);
    number(replayed.answer)
}
