// What a line asks for: its first word, and the numbers behind.
ghost use Rattle.std.specs.Prelude.{◌<◌, length};

use crate::reports::{BODY_BYTES, DESKS, KEYS, NUMBERS, Unread};
use decimal::NumbersError;
use std::io;

// What a line asks for.
#[derive(Clone, Copy)]
pub enum Command<'a> {
    // A body of so many bytes.
    Body(usize),
    // So many keys.
    Keys(usize),
    Desk { key: usize, desk: usize },
    Reserve { desk: usize, pages: u64 },
    Ceiling { desk: usize, pages: u64 },
    Load { key: u64, list: &'a [u64] },
    LoadTight { key: u64, list: &'a [u64] },
    Append { key: u64, n: u64 },
    Extend { key: u64, list: &'a [u64] },
    // The list of a key, where there is room for all of it.
    Read { key: u64, room: usize },
    Drop { key: u64 },
    Places,
    Space,
    Check,
    Help,
}

// A number that may be as large as a limit; what goes past it is told as something.
fn within(n: u64, most: usize, what: &'static str) -> Result<usize, Unread<'static>> {
    if (most as u64) < n {
        return Err(Unread::Past { what, most });
    }
    Ok(n as usize)
}

// The number of a desk.
fn desk_within(desk: u64) -> Result<usize, Unread<'static>> {
    within(desk, DESKS - 1, "too high a number for a desk")
}

// The first word of a line.
#[derive(Clone, Copy)]
enum Word {
    Body,
    Keys,
    Desk,
    Reserve,
    Ceiling,
    Load,
    LoadTight,
    Append,
    Extend,
    Read,
    Drop,
    Places,
    Space,
    Check,
    Help,
}

// The words that the shell knows, each with how it is written and the form of its lines.
const WORDS: [(Word, &str, &str); 15] = [
    (Word::Body, "body", "body BYTES"),
    (Word::Keys, "keys", "keys COUNT"),
    (Word::Desk, "desk", "desk KEY DESK"),
    (Word::Reserve, "reserve", "reserve DESK PAGES"),
    (Word::Ceiling, "ceiling", "ceiling DESK PAGES"),
    (Word::Load, "load", "load KEY NUMBER ..."),
    (Word::LoadTight, "load-tight", "load-tight KEY NUMBER ..."),
    (Word::Append, "append", "append KEY NUMBER"),
    (Word::Extend, "extend", "extend KEY NUMBER ..."),
    (Word::Read, "read", "read KEY, or read KEY ROOM"),
    (Word::Drop, "drop", "drop KEY"),
    (Word::Places, "places", "places alone"),
    (Word::Space, "space", "space alone"),
    (Word::Check, "check", "check alone"),
    (Word::Help, "help", "help alone"),
];

// What is told of a word that the shell doesn't know: all words that there are.
const ALL_WORDS: &str =
    "body, desk, reserve, ceiling, keys, load, load-tight, append, extend, read, drop, places, space, check or help";

// What a word asks for that makes a book, with the numbers behind it; nothing where a line of it has another form.
fn making(word: Word, numbers: &[u64]) -> Result<Option<Command<'static>>, Unread<'static>> {
    let command = match (word, numbers) {
        (Word::Body, [bytes]) => {
            Command::Body(within(*bytes, BODY_BYTES, "too many bytes for a body")?)
        }
        (Word::Keys, [count]) => Command::Keys(within(*count, KEYS, "too many keys")?),
        (Word::Desk, [key, desk]) => Command::Desk {
            key: within(*key, KEYS - 1, "too high a number for a key")?,
            desk: desk_within(*desk)?,
        },
        (Word::Reserve, [desk, pages]) => Command::Reserve {
            desk: desk_within(*desk)?,
            pages: *pages,
        },
        (Word::Ceiling, [desk, pages]) => Command::Ceiling {
            desk: desk_within(*desk)?,
            pages: *pages,
        },
        _ => return Ok(None),
    };
    Ok(Some(command))
}

// What a word asks for, with the numbers behind it; nothing where a line of it has another form.
fn command_of<'a>(word: Word, numbers: &'a [u64]) -> Result<Option<Command<'a>>, Unread<'static>> {
    let command = match (word, numbers) {
        (Word::Load, [key, list @ ..]) => Command::Load { key: *key, list },
        (Word::LoadTight, [key, list @ ..]) => Command::LoadTight { key: *key, list },
        (Word::Append, [key, n]) => Command::Append { key: *key, n: *n },
        (Word::Extend, [key, list @ ..]) => Command::Extend { key: *key, list },
        (Word::Read, [key]) => Command::Read {
            key: *key,
            room: NUMBERS,
        },
        (Word::Read, [key, room]) => Command::Read {
            key: *key,
            room: within(*room, NUMBERS, "too much room")?,
        },
        (Word::Drop, [key]) => Command::Drop { key: *key },
        (Word::Places, []) => Command::Places,
        (Word::Space, []) => Command::Space,
        (Word::Check, []) => Command::Check,
        (Word::Help, []) => Command::Help,
        _ => return making(word, numbers),
    };
    Ok(Some(command))
}

// What a line asks for whose first word is written so, with the numbers behind it.
fn understood<'a>(written: &[u8], numbers: &'a [u64]) -> Result<Command<'a>, Unread<'static>> {
    let known = WORDS.iter().find(|known| known.1.as_bytes() == written);
    let Some((word, _, form)) = known else {
        return Err(Unread::Form(ALL_WORDS));
    };
    command_of(*word, numbers)?.ok_or(Unread::Form(form))
}

// The word of a line that stands from one index to another.
fn between(line: &[u8], start: usize, end: usize) -> &[u8] {
    line.get(start..end).unwrap_or(line)
}

// What a line asks for whose first word begins at an index. Its numbers go to the start of a lent list.
fn ask_words<'a, 'b>(
    line: &'a [u8],
    first: usize,
    list: &'b mut [u64],
) -> Result<Command<'b>, Unread<'a>>
    requires { first < length line.now }
{
    let behind = decimal::word_end(line, first);
    match decimal::numbers_into(line, behind, list) {
        Ok(count) => understood(&line[first..behind], list.get(..count).unwrap_or(&[])),
        Err(NumbersError::TooMany) => Err(Unread::Past {
            what: "too many numbers",
            most: NUMBERS,
        }),
        Err(NumbersError::NotANumber { start, end }) => {
            Err(Unread::NotANumber(between(line, start, end)))
        }
        Err(NumbersError::TooLarge { start, end }) => {
            Err(Unread::TooLarge(between(line, start, end)))
        }
    }
}

// What a line of a script asks for: nothing where it is empty or a comment. Its numbers go to the start of a lent list. What is
// asked for may hold that list; why a line isn't understood holds the line alone.
pub fn ask<'a, 'b>(line: &'a [u8], list: &'b mut [u64]) -> Result<Option<Command<'b>>, Unread<'a>> {
    let first = decimal::skip_spaces(line, 0);
    if first == line.len() || line[first] == b'#' {
        return Ok(None);
    }
    match ask_words(line, first, list) {
        Ok(command) => Ok(Some(command)),
        Err(why) => Err(why),
    }
}

// Writes a line of a script before its answer: a comment as it is, an empty line not at all.
pub fn echo<P: Print>(rt: &P, line: &[u8]) -> io::Result<()> {
    let first = decimal::skip_spaces(line, 0);
    if first == line.len() {
        return Ok(());
    }
    if line[first] != b'#' {
        rt.write_all(b"> ")?;
    }
    rt.write_all(line)?;
    rt.write_all(b"\n")
}
