// The limits of the shell, and reports of lines that can't be read: what goes past a limit is told so, and nothing is done for it.
use std::io;

// The bytes of a line, with its end.
pub const LINE_BYTES: usize = 16384;
// The numbers on a line, the key among them, and the numbers that a read can list: more than the largest body has room for, a byte each.
pub const NUMBERS: usize = 262144;
// The keys of a book.
pub const KEYS: usize = 65536;
// The desks of a book.
pub const DESKS: usize = 16;
// The bytes of a body.
pub const BODY_BYTES: usize = 262144;
// The numbers that a key can have: each takes a byte at least of the largest body, whose first page of 4,096 bytes holds none.
pub const LISTED: usize = BODY_BYTES - 4096;
// The work list of a check: a byte for each 128 bytes of the largest body.
pub const WORK_BYTES: usize = 2048;

// Why nothing is done for a line.
#[derive(Clone, Copy)]
pub enum Unread<'a> {
    // The line should have this form.
    Form(&'static str),
    // Something goes past a limit, which is the most that there may be.
    Past { what: &'static str, most: usize },
    // A word stands where a number should.
    NotANumber(&'a [u8]),
    // A number has more than 64 bits.
    TooLarge(&'a [u8]),
    // The line asks something of a book before there is one.
    NoBook,
    // The line asks for keys, or tells of desks, before there is a body.
    NoBody,
    // The line tells of desks when the book is made.
    MadeAlready,
}

// Reports the word of a line that isn't what was expected.
fn report_word<P: Print>(rt: &P, what: &str, word: &[u8]) -> io::Result<()> {
    print!(rt; "expected {what}, found ")?;
    rt.write_all(word)?;
    rt.write_all(b"\n")
}

// Reports the line of a number, which isn't understood.
pub fn report<P: Print>(rt: &P, number: u64, why: Unread<'_>) -> io::Result<()> {
    print!(rt; "line {number}: ")?;
    match why {
        Unread::Form(form) => println!(rt; "expected {form}"),
        Unread::Past { what, most } => println!(rt; "{what}, the most here is {most}"),
        Unread::NotANumber(word) => report_word(rt, "a number", word),
        Unread::TooLarge(word) => report_word(rt, "a number below 2^64", word),
        Unread::NoBook => print!(rt; "no book yet: type body BYTES, then keys COUNT\n"),
        Unread::NoBody => print!(rt; "no body yet: type body BYTES first\n"),
        Unread::MadeAlready => {
            print!(rt; "the book is made: desks are told between body BYTES and keys COUNT\n")
        }
    }
}
