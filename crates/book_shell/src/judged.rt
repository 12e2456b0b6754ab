// Verdicts on whether a book is a good start, in words.
use book_start::Verdict;
use std::fmt;

// A verdict, in words, with the line's end.
#[derive(Clone, Copy)]
pub struct Judged(pub Verdict);

impl fmt::Display for Judged {
    fn fmt<W: fmt::Write>(&self, f: &mut fmt::Formatter<W>) -> fmt::Result {
        if let Verdict::Good(_) = self.0 {
            return write!(f, "a good start\n");
        }
        write!(f, "not a good start: ")?;
        match self.0 {
            Verdict::KeyUnsound(key) => write!(f, "key {key} is unsound (31)\n"),
            Verdict::KeyShares(key) => {
                write!(f, "key {key} has a block that shares bytes with another\n")
            }
            Verdict::FreeStrays(class) => write!(
                f,
                "the free list of class {class} names what isn't a block of its class before the mark (35)\n"
            ),
            Verdict::FreeShares(class) => write!(
                f,
                "the free list of class {class} has a block that shares bytes with another\n"
            ),
            Verdict::CountsExceed => {
                write!(
                    f,
                    "the counts tell of more pages than the body has behind its first\n"
                )
            }
            Verdict::FreedDiffers => {
                write!(
                    f,
                    "the count of freed pages isn't the length of their free list\n"
                )
            }
            Verdict::HeldDiffers(desk) => {
                write!(
                    f,
                    "desk {desk} has a count that isn't the pages of its keys\n"
                )
            }
            Verdict::HeldHigh(desk) => write!(f, "desk {desk} holds more pages than its ceiling\n"),
            Verdict::ReserveHigh(desk) => write!(
                f,
                "desk {desk} has a reserve above its ceiling\n"
            ),
            Verdict::LacksOpen => {
                write!(
                    f,
                    "fewer pages are to be had than desks lack of their reserves\n"
                )
            }
            Verdict::Good(_) => Ok(()),
        }
    }
}
