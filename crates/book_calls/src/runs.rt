// Running a whole list of calls on a fresh book.
ghost use Rattle.std.specs.Prelude.{◌≡◌};
ghost use Rattle.book.specs.Answers.{book_of};
ghost use Rattle.book_calls.specs.Runs.{Runs};
ghost use Rattle.book_calls.specs.declared.runs.NotRun.TheVariants.{Refused};

use crate::running::run_spelled;
use crate::words::{calls_fit, calls_spelled};
use error::Refusal;

// The ceiling of a desk that has none.
const NO_CEILING: u64 = 18446744073709551615;

// Why nothing was run.
#[derive(Clone, Copy, Debug, PartialEq, Eq)]
pub enum NotRun {
    // The words spell no list of calls.
    Unspelled,
    // The list for the answers may be too short, or the book can't be made.
    Refused(Refusal),
}

impl From<Refusal> for NotRun {
    ghost from_gives = { λ refusal not_run. not_run ≡ Refused refusal };

    // Nothing was run, since a refusal stood against it.
    fn from(refusal: Refusal) -> NotRun {
        NotRun::Refused(refusal)
    }
}

// Runs the calls that some words spell on a fresh book whose desks have no limits, each for its key's desk, and writes the words of their
// answers to the start of a lent list: tells how many these are. Nothing is run where the words spell no calls, where the list is shorter than the answers may be, or
// where the book can't be made.
pub fn run_calls(
    body: &mut [u8],
    heads: &mut [u64],
    mark: &mut u64,
    free: &mut [u64; 9],
    counts: &mut [u64; 49],
    desks: &[u8],
    calls: &[u64],
    answers: &mut [u64],
) -> Result<usize, NotRun>
    ensures { Runs desks.now (book_of body.old heads.old mark.old free.old
        counts.old) calls.now
        answers.old result (book_of body.new heads.new mark.new free.new counts.new)
        answers.new }
{
    if !calls_spelled(calls) {
        return Err(NotRun::Unspelled);
    }
    if !calls_fit(calls, answers.len()) {
        return Err(NotRun::Refused(Refusal::ListTooShort));
    }
    let reserve: [u64; 16] = [0; 16];
    let ceiling: [u64; 16] = [NO_CEILING; 16];
    book_start::fresh(body, heads, mark, free, counts, desks, &reserve, &ceiling)?;
    Ok(run_spelled(body, heads, mark, free, counts, desks, calls, answers))
}
