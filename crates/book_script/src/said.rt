// Answers of accepted calls, in words.
use scripthash_layout::ShHeadValue;
use std::{fmt, io};

// A number of things, and what stands behind it where it is 1, and where it isn't.
#[derive(Clone, Copy)]
struct Counted(u64, &'static str, &'static str);

impl fmt::Display for Counted {
    fn fmt<W: fmt::Write>(&self, f: &mut fmt::Formatter<W>) -> fmt::Result {
        let Counted(n, one, many) = *self;
        write!(f, "{n}{}", if n == 1 { one } else { many })
    }
}

// A key's place, in words.
#[derive(Clone, Copy)]
pub struct Place(pub ShHeadValue);

impl fmt::Display for Place {
    fn fmt<W: fmt::Write>(&self, f: &mut fmt::Formatter<W>) -> fmt::Result {
        match self.0 {
            ShHeadValue::Empty => write!(f, "empty"),
            ShHeadValue::Inline { entry, .. } => write!(f, "inline {entry}"),
            ShHeadValue::Slab { class, used, off } => {
                write!(f, "slab class {class}, used {used}, offset {off}")
            }
            ShHeadValue::Extent { last_page } => write!(f, "pages, the last at offset {last_page}"),
        }
    }
}

// A body was asked for.
pub fn body_made<P: Print>(rt: &P, size: u64) -> io::Result<()> {
    print!(rt; "body of {size} bytes\n")
}

// The desk of a key was told.
pub fn desk_told<P: Print>(rt: &P, key: u64, desk: u64) -> io::Result<()> {
    println!(rt; "key {key} is of desk {desk}")
}

// The reserve of a desk was told.
pub fn reserve_told<P: Print>(rt: &P, desk: u64, pages: u64) -> io::Result<()> {
    print!(rt;
        "desk {desk} has a reserve of {}",
        Counted(pages, " page\n", " pages\n")
    )
}

// The ceiling of a desk was told.
pub fn ceiling_told<P: Print>(rt: &P, desk: u64, pages: u64) -> io::Result<()> {
    print!(rt;
        "desk {desk} has a ceiling of {}",
        Counted(pages, " page\n", " pages\n")
    )
}

// A book was made fresh.
pub fn keys_made<P: Print>(rt: &P, keys: u64, size: u64) -> io::Result<()> {
    print!(rt;
        "{}{}",
        Counted(keys, " key over ", " keys over "),
        Counted(size, " byte: a fresh book\n", " bytes: a fresh book\n")
    )
}

// A list was loaded.
pub fn loaded<P: Print>(rt: &P, numbers: u64, pages: u64) -> io::Result<()> {
    print!(rt;
        "loaded: {}{}",
        Counted(numbers, " number, ", " numbers, "),
        Counted(pages, " page\n", " pages\n")
    )
}

// A number was appended.
pub fn appended<P: Print>(rt: &P, to: ShHeadValue, rewritten: u64) -> io::Result<()> {
    print!(rt;
        "appended: {}; {}",
        Place(to),
        Counted(rewritten, " record rewritten\n", " records rewritten\n")
    )
}

// Numbers were appended one after another.
pub fn extended<P: Print>(
    rt: &P,
    count: u64,
    to: ShHeadValue,
    moves: u64,
    rewritten: u64,
) -> io::Result<()> {
    print!(rt;
        "extended: {}{}; {}{}",
        Counted(count, " number; ", " numbers; "),
        Place(to),
        Counted(moves, " move, ", " moves, "),
        Counted(rewritten, " record rewritten\n", " records rewritten\n")
    )
}

// A list was read; so many of its numbers are padded.
pub fn listed<P: Print>(rt: &P, list: &[u64], pages: u64, padded: u64) -> io::Result<()> {
    if list.is_empty() {
        return print!(rt; "read: nothing is recorded\n");
    }
    let length = list.len() as u64;
    print!(rt;
        "read: {}{}",
        Counted(length, " number, ", " numbers, "),
        Counted(pages, " page", " pages")
    )?;
    if padded != 0 {
        print!(rt; ", {padded} padded")?;
    }
    println!(rt; ":{}", text::Numbers(list))
}

// A list was dropped.
pub fn dropped<P: Print>(rt: &P, length: u64) -> io::Result<()> {
    print!(rt; "dropped: {}", Counted(length, " number\n", " numbers\n"))
}

// No more lines come: so many were refused, and so many not understood.
pub fn ended<P: Print>(rt: &P, refused: u64, unread: u64) -> io::Result<()> {
    print!(rt;
        "{}{}",
        Counted(refused, " line refused, ", " lines refused, "),
        Counted(unread, " line not understood\n", " lines not understood\n")
    )
}
