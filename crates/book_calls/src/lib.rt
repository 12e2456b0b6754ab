// Runs a whole list of calls on a fresh account book: the calls come as words, and the answers go out as words (`book_words` spells both).
// The answers are the plain book's.
#![tactic(auto)]

mod answers;
mod running;
mod runs;
mod words;

pub use runs::{NotRun, run_calls};
