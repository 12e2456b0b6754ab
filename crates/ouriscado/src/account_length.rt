// How many numbers a key of the account book has.
ghost use Rattle.std.specs.Prelude.{List, ◌≡◌, ℕ};
ghost use Rattle.error.specs.Refusal.{refusal_of, value_or};
ghost use Rattle.book.specs.Answers.{book_of};
ghost use Rattle.book_read.specs.Lengths.{lengths, lengths_with};

use crate::answers::hand_out;

// Tells how many record numbers the list of a key has, as ouriscado_book_length does; it is lent neither counts nor desks. Refuses 1, 2,
// 31.
#[unsafe(no_mangle)]
pub extern "C" fn ouriscado_core_length(
    body: &[u8],
    heads: &[u64],
    mark: u64,
    key: u64,
    length: &mut u64,
) -> u32
    ensures number { (free counts : List ℕ) → result
        ≡ refusal_of (lengths (book_of body.now heads.now mark free counts) key) }
    ensures length { (free counts : List ℕ) → length.new
        ≡ value_or (λ n. n) (lengths (book_of body.now heads.now mark free counts) key) 0 }
{
    hand_out(book_read::length(body, heads, mark, key), 0, length)
}

// Hands out length, how many record numbers the list of a key has: a list of that length that is lent to ouriscado_book_read isn't too
// short. The key is judged as a read judges it, and nothing is written. Refuses 1, 2, 31, 39.
#[unsafe(no_mangle)]
pub extern "C" fn ouriscado_book_length(
    body: &[u8],
    heads: &[u64],
    mark: u64,
    counts: &[u64; 49],
    desks: &[u8],
    key: u64,
    length: &mut u64,
) -> u32
    ensures number { (free : List ℕ) → result ≡ refusal_of (lengths_with desks.now
        (book_of body.now heads.now mark free counts.now) key) }
    ensures length { (free : List ℕ) → length.new ≡ value_or (λ n. n) (lengths_with desks.now
        (book_of body.now heads.now mark free counts.now) key) 0 }
{
    if let Err(refusal) = book::judge_call(body, heads.len(), mark, counts, desks) {
        return hand_out(Err(refusal), 0, length);
    }
    ouriscado_core_length(body, heads, mark, key, length)
}
