// A shell for the account book: reads a script from standard input, a call a line, and writes each answer in words. `body BYTES` and then
// `keys COUNT` make a fresh book, and between them `desk KEY DESK`, `reserve DESK PAGES` and `ceiling DESK PAGES` tell of its desks;
// `load KEY NUMBER ...`, `load-tight KEY NUMBER ...`, `append KEY NUMBER`, `extend KEY NUMBER ...`, `read KEY` and `drop KEY` are its
// calls; `places` and `space` show what it holds, and `check` tells whether it is a good start; `help` lists these lines, and `#` begins a
// comment. A line that can't be read, or comes before there is a book, is reported with its number, and nothing is done for it. The last
// line of all tells how many lines were refused, also such of which a number was, and how many not understood.
#![tactic(auto)]

mod accounts;
mod judged;
mod turned;

use accounts::Book;
use book_rules::SlabFit;
use book_script::{BODY_BYTES, Command, KEYS, LINE_BYTES, LISTED, Lines, Unread};
use judged::Judged;
use std::io;
use std::io::Read;
use text::Unheard;
use turned::Turned;

// Loads a list onto a key.
fn load<P: Print>(
    rt: &P,
    book: &mut Book<'_>,
    fit: SlabFit,
    key: u64,
    list: &[u64],
) -> Result<(), Turned<'static>> {
    let pages = book.load(fit, key, list)?;
    book_script::loaded(rt, list.len() as u64, pages)?;
    Ok(())
}

// Appends numbers to a key, up to the first that is refused.
fn extend<P: Print>(
    rt: &P,
    book: &mut Book<'_>,
    key: u64,
    list: &[u64],
) -> Result<(), Turned<'static>> {
    let by = book.extend(key, list)?;
    book_script::extended(rt, by.count, by.place, by.moves, by.rewritten)?;
    let Some(refusal) = by.refusal else {
        return Ok(());
    };
    let n = list.get(by.count as usize).copied().unwrap_or(0);
    Err(Turned::Stopped { n, refusal })
}

// Reads the list of a key into a lent list, where there is room for all of it.
fn read<P: Print>(
    rt: &P,
    book: &Book<'_>,
    key: u64,
    room: usize,
    list: &mut [u64],
) -> Result<(), Turned<'static>> {
    book.is_made()?;
    let read = book.read(key, room, list)?;
    let listed = list.get(..read.length as usize).unwrap_or(list);
    book_script::listed(rt, listed, read.pages, read.padded)?;
    Ok(())
}

// Does what is asked for on the book, where there is one; all but a read, which a list is lent to.
fn on_book<P: Print>(
    rt: &P,
    book: &mut Book<'_>,
    command: Command<'_>,
) -> Result<(), Turned<'static>> {
    book.is_made()?;
    match command {
        Command::Load { key, list } => load(rt, book, SlabFit::Spare, key, list)?,
        Command::LoadTight { key, list } => load(rt, book, SlabFit::Tight, key, list)?,
        Command::Append { key, n } => {
            let to = book.append(key, n)?;
            book_script::appended(rt, to.place, to.rewritten)?;
        }
        Command::Extend { key, list } => extend(rt, book, key, list)?,
        Command::Drop { key } => book_script::dropped(rt, book.drop_key(key)?)?,
        Command::Places => book_script::places(rt, book.heads())?,
        Command::Check => {
            let judged = Judged(book.check()?);
            print!(rt; "{judged}")?;
        }
        _ => book.show_space(rt)?,
    }
    Ok(())
}

// Does what is asked for; all but a read, which a list is lent to.
fn act<P: Print>(rt: &P, book: &mut Book<'_>, command: Command<'_>) -> Result<(), Turned<'static>> {
    match command {
        Command::Help => book_script::help(rt)?,
        Command::Body(bytes) => {
            book.set_body(bytes);
            book_script::body_made(rt, bytes as u64)?;
        }
        Command::Desk { key, desk } => {
            book.give(key, desk)?;
            book_script::desk_told(rt, key as u64, desk as u64)?;
        }
        Command::Reserve { desk, pages } => {
            book.reserve(desk, pages)?;
            book_script::reserve_told(rt, desk as u64, pages)?;
        }
        Command::Ceiling { desk, pages } => {
            book.limit(desk, pages)?;
            book_script::ceiling_told(rt, desk as u64, pages)?;
        }
        Command::Keys(keys) => {
            let bytes = book.make(keys)?;
            book_script::keys_made(rt, keys as u64, bytes as u64)?;
        }
        _ => on_book(rt, book, command)?,
    }
    Ok(())
}

// Does a line. Its numbers go to the start of a lent list, and so do those that it reads.
fn answer<'a, P: Print>(
    rt: &P,
    line: Result<&'a [u8], Unread<'a>>,
    list: &mut [u64],
    book: &mut Book<'_>,
) -> Result<(), Turned<'a>> {
    let text = line?;
    book_script::echo(rt, text)?;
    match book_script::ask(text, list)? {
        Some(Command::Read { key, room }) => read(rt, book, key, room, list),
        Some(command) => act(rt, book, command),
        None => Ok(()),
    }
}

// How many lines were refused, and how many weren't understood.
#[derive(Clone, Copy)]
struct Tally {
    refused: u64,
    unread: u64,
}

impl Tally {
    // A line was done, or says why it wasn't.
    fn count<P: Print>(
        &mut self,
        rt: &P,
        number: u64,
        done: Result<(), Turned<'_>>,
    ) -> io::Result<()> {
        match done {
            Ok(()) => Ok(()),
            Err(Turned::Io(e)) => Err(e),
            Err(Turned::Unread(why)) => {
                self.unread = self.unread.saturating_add(1);
                book_script::report(rt, number, why)
            }
            Err(Turned::Refused(refusal)) => {
                self.refused = self.refused.saturating_add(1);
                book_script::refused(rt, refusal)
            }
            Err(Turned::Stopped { n, refusal }) => {
                self.refused = self.refused.saturating_add(1);
                book_script::stopped(rt, n, refusal)
            }
        }
    }
}

// Does the lines of an input, one after another, until no more come. All memory is lent from here: it is none that could be refused.
fn run<P: Print, I: Read>(rt: &P, input: &mut I) -> io::Result<()> {
    let mut line = [0u8; LINE_BYTES];
    let mut list = [0u64; LISTED];
    let mut body = [0u8; BODY_BYTES];
    let mut heads = [0u64; KEYS];
    let mut desks = [0u8; KEYS];
    let mut lines = Lines::new(input, &mut line);
    let mut book = Book::new(&mut body, &mut heads, &mut desks);
    let mut tally = Tally {
        refused: 0,
        unread: 0,
    };
    for number in 1..=u64::MAX {
        let Some(line) = lines.next_line() else {
            break;
        };
        let done = answer(rt, line, &mut list, &mut book);
        tally.count(rt, number, done)?;
    }
    book_script::ended(rt, tally.refused, tally.unread)
}

// What can't be written is lost, and the next line is done.
fn main(rt: HostRuntime) {
    let _ = run(&Unheard(&rt), &mut rt.stdin());
}
