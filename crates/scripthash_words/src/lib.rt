// Streams read with no branch on a form's length, behind a first number of any length: by words, which are each form's first four bytes,
// where forms differ in length, or by bytes, where each byte is a form.
#![tactic(auto)]

mod fill;
mod first;
mod look;
mod ones;
mod read;
mod starts;
mod values;

pub use fill::fill_by_words;
pub use look::better_scanned;
pub use read::read_by_words;
