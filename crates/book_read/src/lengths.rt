// How many numbers a key has.
// Sizes and numbers of 64 bits are cast with `as`, since Rust has no From between them: each cast is proved to fit.
ghost use Rattle.std.specs.Prelude.{ℕ, List, ◌≡◌};
ghost use Rattle.book_keys.specs.Answers.{length_answer};
ghost use Rattle.book.specs.Answers.{book_of};
ghost use Rattle.book_read.specs.Lengths.{lengths};

use error::Refusal;

// Tells how many numbers a key has, whatever the free heads and the counts are: all of the key is judged, and nothing is written.
pub fn length(body: &[u8], heads: &[u64], mark: u64, key: u64) -> Result<u64, Refusal>
    ensures { (free counts : List ℕ) → length_answer result
        ≡ lengths (book_of body.now heads.now mark free counts) key }
{
    if book_space::shape_broken(body, heads.len(), mark) {
        return Err(Refusal::ShapeBad);
    }
    if heads.len() as u64 <= key {
        return Err(Refusal::KeyBeyond);
    }
    book_keys::key_length(body, mark, heads[key as usize])
}
