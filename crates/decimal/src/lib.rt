// Numbers in decimal, read from text. A number that the library displays is read back, and so is one that the toolchain's `io` prints
// (`proofs/LawsDecimal`).
#![tactic(auto)]

mod words;

ghost use Rattle.std.specs.Prelude.{◌≡◌, ◌-◌};
ghost use Rattle.decimal.specs.Decimal.{all_digits, value_of, in64_bits, read_decimal};

pub use words::{NumbersError, numbers_into, skip_spaces, word_end};

// Why a word isn't read as a number.
#[derive(Clone, Copy, Debug, PartialEq, Eq)]
pub enum DecimalError {
    // The word is empty, or has a byte that is no digit.
    NotANumber,
    // The word is a number of more than 64 bits.
    TooLarge,
}

// What a digit is worth.
fn digit_of(b: u8) -> u64
    ensures { result ≡ b - 48 }
{
    u64::from(b.saturating_sub(b'0'))
}

// Each byte of a word is a digit.
fn all_digits(word: &[u8]) -> bool
    ensures { result ≡ all_digits word.now }
{
    word.iter().all(|b| b.is_ascii_digit())
}

// The value of the digits of a word, where 64 bits hold it.
fn value_of(word: &[u8]) -> Result<u64, DecimalError>
    ensures { result ≡ in64_bits (value_of word.now) }
{
    let mut value: u64 = 0;
    for b in word {
        let digit = digit_of(*b);
        let tens = value.checked_mul(10).ok_or(DecimalError::TooLarge)?;
        value = tens.checked_add(digit).ok_or(DecimalError::TooLarge)?;
    }
    Ok(value)
}

// Reads a word, all of it, as a number in decimal.
// The library's `parse` takes a sign before the digits, too.
pub fn read_decimal(word: &[u8]) -> Result<u64, DecimalError>
    ensures { result ≡ read_decimal word.now }
{
    if word.is_empty() || !all_digits(word) {
        return Err(DecimalError::NotANumber);
    }
    value_of(word)
}
