// Making a book fresh.
ghost use Rattle.std.specs.Prelude.{◌≡◌, length, replicate};
ghost use Rattle.error.specs.Refusal.{answered};
ghost use Rattle.error.specs.Answers.{refusal_in};
ghost use Rattle.book_desks.specs.Desks.{Limits, desks, reserve_high};
ghost use Rattle.book_desks.specs.Counts.{limits_in, fresh_counts};
ghost use Rattle.book.specs.Book.{Book};
ghost use Rattle.book.specs.Answers.{book_of};
ghost use Rattle.book_start.specs.Making.{limits_of, makes_fresh, made_after, making_number};
ghost use Rattle.book_start.specs.Answers.{fresh_answer};

use book_desks::{CEILING, DESKS, RESERVE};
use error::Refusal;
use scripthash_layout::{SH_PAGE_BYTES, SH_PREFIX_PAGE};

// The counts of a fresh book: nothing is freed or held, and the limits are as given.
fn fresh_counts(reserve: &[u64; 16], ceiling: &[u64; 16]) -> [u64; 49]
    ensures { result ≡ fresh_counts (limits_of reserve.now ceiling.now) }
{
    let mut words: [u64; 49] = [0; 49];
    for d in 0..DESKS {
        words[RESERVE + d] = reserve[d];
        words[CEILING + d] = ceiling[d];
    }
    words
}

// Tells whether a reserve is above its own ceiling.
fn above_ceiling(counts: &[u64; 49]) -> bool
    ensures { result ≡ reserve_high desks (limits_in counts.now) }
{
    for d in 0..DESKS {
        if counts[CEILING + d] < counts[RESERVE + d] {
            return true;
        }
    }
    false
}

// Judges a making of a book of so many bytes and heads, whose counts would be these. What a fresh book lacks is the sum of its reserves.
fn judge_making(size: usize, heads: usize, desks: &[u8], counts: &[u64; 49]) -> Result<(), Refusal>
    ensures { (l : Limits) → counts.now ≡ fresh_counts l → refusal_in result ≡ making_number desks.now size heads l }
{
    if book_space::out_of_shape(size, heads) {
        return Err(Refusal::ShapeBad);
    }
    if book_desks::counts_high(counts, size as u64) {
        return Err(Refusal::ShapeBad);
    }
    if book_desks::list_bad(desks, heads) {
        return Err(Refusal::DesksBad);
    }
    if size as u64 / SH_PAGE_BYTES - 1 < book_desks::sum_of_lacks(counts) {
        return Err(Refusal::DesksBad);
    }
    if above_ceiling(counts) {
        return Err(Refusal::DesksBad);
    }
    Ok(())
}

// Makes a book fresh over a body, which stays as it is: heads and free heads become 0, the mark 4,096, and the counts those of desks that
// hold nothing, with a reserve and a ceiling for each. Nothing is changed where that is refused.
pub fn fresh(
    body: &[u8],
    heads: &mut [u64],
    mark: &mut u64,
    free: &mut [u64; 9],
    counts: &mut [u64; 49],
    desks: &[u8],
    reserve: &[u64; 16],
    ceiling: &[u64; 16],
) -> Result<(), Refusal>
    ensures answer { fresh_answer result ≡ answered (λ (b : Book). tt)
        (makes_fresh desks.now (limits_of reserve.now ceiling.now)
        (book_of body.now heads.old mark.old free.old counts.old)) }
    ensures book { book_of body.now heads.new mark.new free.new counts.new
        ≡ made_after (book_of body.now heads.old mark.old free.old counts.old)
        (makes_fresh desks.now (limits_of reserve.now ceiling.now)
        (book_of body.now heads.old mark.old free.old counts.old)) }
{
    let words = fresh_counts(reserve, ceiling);
    judge_making(body.len(), heads.len(), desks, &words)?;
    heads.fill(0);
    *mark = SH_PREFIX_PAGE;
    *free = [0; 9];
    *counts = words;
    Ok(())
}
