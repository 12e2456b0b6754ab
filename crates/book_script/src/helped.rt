// The lines that there are, and the limits, for a person who asks for help.
use crate::reports::{BODY_BYTES, KEYS, LINE_BYTES};
use std::io;

// The lines that tell of desks, those that change an account, and those that show what a book holds, each with its end.
const LINES: [&str; 12] = [
    "desk KEY DESK: between body and keys, gives an account to a desk, from 0 to 15; to desk 0 where no line does\n",
    "reserve DESK PAGES: between body and keys, keeps pages for a desk; none where no line does\n",
    "ceiling DESK PAGES: between body and keys, the most pages that a desk gets; all where no line does\n",
    "append KEY NUMBER: records a number, from 1 to 2^62 - 1, above the last that is recorded\n",
    "extend KEY NUMBER ...: records numbers one after another, up to the first that is refused\n",
    "load KEY NUMBER ...: records rising numbers in an empty account, with a spare slot for the next\n",
    "load-tight KEY NUMBER ...: the same in the smallest slab that holds them, for lists that are complete\n",
    "drop KEY: empties an account\n",
    "read KEY, or read KEY ROOM: shows an account's numbers, where there is room for all of them\n",
    "places: shows where each account stands\n",
    "space: shows the mark and the freed blocks\n",
    "check: tells whether the book is a good start\n",
];

// Writes the lines that there are, and the limits.
pub fn help<P: Print>(rt: &P) -> io::Result<()> {
    println!(rt;
        "body BYTES: the size of a book, in whole pages of 4096 bytes, from 8192 to {BODY_BYTES}"
    )?;
    println!(rt;
        "keys COUNT: makes a fresh book of so many accounts, which are the keys 0, 1, ...; from 1 to {KEYS}"
    )?;
    for line in LINES {
        rt.write_all(line.as_bytes())?;
    }
    rt.write_all(b"help: shows these lines\n")?;
    println!(rt;
        "a line that begins with # is a comment; the most bytes of a line are {LINE_BYTES}"
    )
}
