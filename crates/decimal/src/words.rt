// The words of a line, and the numbers that they are.
ghost use Rattle.std.specs.Prelude.{◌≡◌, List, ℕ, ◌≤◌, ◌<◌, length};
ghost use Rattle.decimal.specs.Decimal.{read_decimal};
ghost use Rattle.decimal.specs.Words.{TakenWords, words_from, take_word, take_words, after_word, Skips, Ends};

use crate::{DecimalError, read_decimal};

// Why the words of a line aren't read as numbers.
#[derive(Clone, Copy, Debug, PartialEq, Eq)]
pub enum NumbersError {
    // More numbers than the list has room for.
    TooMany,
    // A word that isn't a number stands here.
    NotANumber { start: usize, end: usize },
    // A number that passes 64 bits stands here.
    TooLarge { start: usize, end: usize },
}

// The first index, from the given one on, where a word begins, or the line's end.
pub fn skip_spaces(line: &[u8], from: usize) -> usize
    requires { from ≤ length line.now }
    ensures { Skips line.now from result }
{
    for i in from..line.len() {
        if b' ' < line[i] {
            return i;
        }
    }
    line.len()
}

// The end of the word that begins at an index.
pub fn word_end(line: &[u8], start: usize) -> usize
    requires { start < length line.now }
    ensures { Ends line.now start result }
{
    for i in start + 1..line.len() {
        if line[i] <= b' ' {
            return i;
        }
    }
    line.len()
}

// Reads the word of a line that begins and ends at two indices, and puts its number behind so many in a list.
fn put_word(
    word: &[u8],
    start: usize,
    end: usize,
    list: &mut [u64],
    count: usize,
) -> Result<(), NumbersError>
    ensures by_index { (more : List ℕ → TakenWords)
        → take_word (read_decimal word.now) start end list.old count more ≡ after_word result list.new more }
    ensures list_len_unchanged { length list.new ≡ length list.old }
{
    match read_decimal(word) {
        Ok(n) if count < list.len() => {
            list[count] = n;
            Ok(())
        }
        Ok(_) => Err(NumbersError::TooMany),
        Err(DecimalError::NotANumber) => Err(NumbersError::NotANumber { start, end }),
        Err(DecimalError::TooLarge) => Err(NumbersError::TooLarge { start, end }),
    }
}

// Reads the words of a line from an index on as numbers, into the start of a lent list, and tells how many. The numbers before a word that
// ends the reading are in the list then, too.
pub fn numbers_into(line: &[u8], from: usize, list: &mut [u64]) -> Result<usize, NumbersError>
    requires { from ≤ length line.now }
    ensures answer { result ≡ (take_words line.now list.old 0 (words_from line.now from)).answer }
    ensures list { list.new
        ≡ (take_words line.now list.old 0 (words_from line.now from)).list }
{
    let mut at = from;
    let mut count: usize = 0;
    // The step isn't one: each turn goes on by a word and the spaces before it, so no range counts it.
    while at < line.len() {
        let start = skip_spaces(line, at);
        if start == line.len() {
            return Ok(count);
        }
        let end = word_end(line, start);
        put_word(&line[start..end], start, end, list, count)?;
        count += 1;
        at = end;
    }
    Ok(count)
}
