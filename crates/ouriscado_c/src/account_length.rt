// The functions of crate ouriscado in src/account_length.rt, for C: each export calls the one of its name, whose comment says what it does.
ghost use Rattle.std.specs.Prelude.{List, ◌≡◌, ℕ};
ghost use Rattle.error.specs.Refusal.{refusal_of, value_or};
ghost use Rattle.book.specs.Answers.{book_of};
ghost use Rattle.book_read.specs.Lengths.{lengths, lengths_with};

#[unsafe(no_mangle)]
pub extern "C" fn ouriscado_core_length(
    body: &[u8],
    heads: &[u64],
    mark: u64,
    key: u64,
    length: &mut u64,
) -> u32
    ensures number { (free counts : List ℕ) → result
        ≡ refusal_of (lengths (book_of body.now heads.now mark free counts) key) }
    ensures length { (free counts : List ℕ) → length.new
        ≡ value_or (λ n. n) (lengths (book_of body.now heads.now mark free counts) key) 0 }
{
    ouriscado::ouriscado_core_length(body, heads, mark, key, length)
}

#[unsafe(no_mangle)]
pub extern "C" fn ouriscado_book_length(
    body: &[u8],
    heads: &[u64],
    mark: u64,
    counts: &[u64; 49],
    desks: &[u8],
    key: u64,
    length: &mut u64,
) -> u32
    ensures number { (free : List ℕ) → result ≡ refusal_of (lengths_with desks.now
        (book_of body.now heads.now mark free counts.now) key) }
    ensures length { (free : List ℕ) → length.new ≡ value_or (λ n. n) (lengths_with desks.now
        (book_of body.now heads.now mark free counts.now) key) 0 }
{
    ouriscado::ouriscado_book_length(body, heads, mark, counts, desks, key, length)
}
