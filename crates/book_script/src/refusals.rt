// The words of a refusal.
use error::Refusal;
use std::io;

// What a refusal means.
fn meaning(refusal: Refusal) -> &'static str {
    match refusal {
        Refusal::ShapeBad => "the book's shape breaks its limits",
        Refusal::KeyBeyond => "the key is beyond the heads",
        Refusal::KeyInUse => "a load meets a key in use",
        Refusal::TooManyOffered => "more than 65,535 numbers are offered",
        Refusal::OfferedFirstZero => "the first or only number offered is 0",
        Refusal::OfferedBit63 => "a number offered has bit 63 set",
        Refusal::OfferedTooLarge => "a book is offered 2^62 or more",
        Refusal::KeyUnsound => "the key isn't sound: it is unknown, never taken for empty",
        Refusal::OfferedNotRising => "a number offered isn't above the one before",
        Refusal::ListTooShort => "the lent list is too short",
        Refusal::FreeHeadBad => "a free head isn't a block of its class before the mark",
        Refusal::NoRoom => "no room: the block or run would pass the body's end",
        Refusal::DesksBad => "the desks can't be served",
        Refusal::PastCeiling => "a take of pages would pass its desk's ceiling",
        Refusal::IntoReserves => "a take would leave fewer pages than desks lack of their reserves",
        Refusal::FreeListBad => "the list of freed pages can't be searched",
        _ => "no call of a book answers this",
    }
}

// Writes a refusal: its number, and what it means.
pub fn refused<P: Print>(rt: &P, refusal: Refusal) -> io::Result<()> {
    println!(rt; "refused {}: {}", u32::from(refusal), meaning(refusal))
}

// Writes the number at which an extend stopped, and why it was refused.
pub fn stopped<P: Print>(rt: &P, n: u64, refusal: Refusal) -> io::Result<()> {
    print!(rt; "the next number, {n}, is ")?;
    refused(rt, refusal)
}
