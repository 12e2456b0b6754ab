// A call that is lent the list of desks: what is judged before it.
// Sizes and numbers of 64 bits are cast with `as`, since Rust has no From between them: each cast is proved to fit.
ghost use Rattle.std.specs.Prelude.{ℕ, List, ◌≡◌, length};
ghost use Rattle.error.specs.Answers.{refusal_in};
ghost use Rattle.book.specs.Answers.{book_of};
ghost use Rattle.book.specs.Steps.{call_number};

use error::Refusal;

// Judges a call with a list of desks before anything else: by lengths, mark and counts, and by the list.
pub fn judge_call(
    body: &[u8],
    heads: usize,
    mark: u64,
    counts: &[u64; 49],
    desks: &[u8],
) -> Result<(), Refusal>
    ensures { (words free : List ℕ) → length words ≡ heads
        → refusal_in result ≡ call_number desks.now (book_of body.now words mark free counts.now) }
{
    if book_space::shape_broken(body, heads, mark) {
        return Err(Refusal::ShapeBad);
    }
    if book_desks::counts_high(counts, body.len() as u64) {
        return Err(Refusal::ShapeBad);
    }
    if book_desks::list_bad(desks, heads) {
        return Err(Refusal::DesksBad);
    }
    Ok(())
}
