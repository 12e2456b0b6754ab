// Why a line isn't answered as it asks.
use book_script::Unread;
use error::Refusal;
use std::io;

// Why a line isn't answered as it asks.
#[derive(Drop)]
pub enum Turned<'a> {
    // Nothing can be written.
    Io(io::Error),
    // The line isn't understood.
    Unread(Unread<'a>),
    // Its call was refused.
    Refused(Refusal),
    // An extend stopped at a number, which was refused.
    Stopped { n: u64, refusal: Refusal },
}

impl From<io::Error> for Turned<'_> {
    fn from(e: io::Error) -> Self {
        Turned::Io(e)
    }
}

impl<'a> From<Unread<'a>> for Turned<'a> {
    fn from(why: Unread<'a>) -> Self {
        Turned::Unread(why)
    }
}

impl From<Refusal> for Turned<'_> {
    fn from(refusal: Refusal) -> Self {
        Turned::Refused(refusal)
    }
}
