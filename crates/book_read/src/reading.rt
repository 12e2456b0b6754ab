// Reading a key's list.
// Sizes and numbers of 64 bits are cast with `as`, since Rust has no From between them: each cast is proved to fit.
ghost use Rattle.std.specs.Prelude.{ℕ, List, ◌≡◌, length};
ghost use Rattle.error.specs.Refusal.{answered};
ghost use Rattle.book_read.specs.Reads.{reads, list_after};
ghost use Rattle.book.specs.Answers.{book_of};
ghost use Rattle.book_read.specs.Answers.{read_answer, counted_of};

use crate::answers::BookRead;
use book_keys::KeyCounts;
use error::Refusal;

// Reads the list of a key into the start of a lent list, whatever the free heads and the counts are: all of the key is judged before
// the lent list, which is left where the read is refused.
pub fn read(
    body: &[u8],
    heads: &[u64],
    mark: u64,
    key: u64,
    out: &mut [u64],
) -> Result<BookRead, Refusal>
    ensures answer { (free counts : List ℕ) → read_answer result
        ≡ answered counted_of (reads (book_of body.now heads.now mark free counts) key (length out.old)) }
    ensures list { (free counts : List ℕ) → out.new
        ≡ list_after out.old
        (reads (book_of body.now heads.now mark free counts) key (length out.old)) }
{
    if book_space::shape_broken(body, heads.len(), mark) {
        return Err(Refusal::ShapeBad);
    }
    if heads.len() as u64 <= key {
        return Err(Refusal::KeyBeyond);
    }
    let word = heads[key as usize];
    let KeyCounts {
        length,
        pages,
        padded,
    } = book_keys::read_key(body, mark, word, out)?;
    Ok(BookRead {
        length,
        pages,
        padded,
    })
}
