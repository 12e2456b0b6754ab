// Replays histories of the account book, which data/ holds with the answers of a second book: makes each call through the C boundary, and
// compares its whole answer, and after it all of body, state and heads. Writes a line for each file, and one for each line that differs.
#![tactic(auto)]

mod calls;
mod changes;
mod desks;
mod memory;

use calls::{Kind, kind_of};
use hex_fields::{field, title};
use memory::Book;
use std::io;
use std::rt::Files;
use text::{Pieces, Unheard};

// Replays a line on our book: makes its call, or writes what somebody else wrote. Tells whether the call answers what the line says. Words
// with places behind ours, which only a damaged line has, are put to the book that is wanted, where they show as what differs.
fn replay_ours(line: &[u8], ours: &mut Book, wanted: &mut Book) -> bool {
    match kind_of(line) {
        Some(Kind::Written | Kind::Begins) => {
            changes::make(field(line, 6), ours);
            changes::put_behind(field(line, 6), wanted);
            true
        }
        _ => calls::agrees(line, ours),
    }
}

// Replays a line, and then compares our book with the one that is wanted, which the line changes.
fn replay(line: &[u8], ours: &mut Book, wanted: &mut Book) -> bool {
    let agrees = replay_ours(line, ours, wanted);
    changes::make(field(line, 6), wanted);
    agrees && *ours == *wanted
}

// How many lines of a file were replayed, how many of them differ, and how many histories began.
#[derive(Clone, Copy)]
struct Count {
    lines: u64,
    differ: u64,
    histories: u64,
}

impl Count {
    // Counts a line that was replayed, and writes where it differs.
    fn line<P: Print>(&mut self, rt: &P, line: &[u8], agrees: bool) -> io::Result<()> {
        self.lines = self.lines.saturating_add(1);
        if kind_of(line) == Some(Kind::Begins) {
            self.histories = self.histories.saturating_add(1);
        }
        if agrees {
            return Ok(());
        }
        self.differ = self.differ.saturating_add(1);
        print!(rt; "line {} differs\n", self.lines)
    }

    // Writes the line of a file: its title, and what was counted.
    fn show<P: Print>(&self, rt: &P, title: &[u8]) -> io::Result<()> {
        let Count {
            lines,
            differ,
            histories,
        } = *self;
        rt.write_all(title)?;
        print!(rt; ": {histories} histories, {lines} lines replayed, {differ} differ\n")
    }
}

// Replays a text: lines of histories, and at its end one with a title.
fn replay_all<P: Print>(rt: &P, text: &[u8]) -> io::Result<()> {
    let mut ours = Book::new();
    let mut wanted = Book::new();
    let mut count = Count {
        lines: 0,
        differ: 0,
        histories: 0,
    };
    for line in Pieces::new(text, b'\n') {
        if let Some(title) = title(line) {
            return count.show(rt, title);
        }
        let agrees = replay(line, &mut ours, &mut wanted);
        count.line(rt, line, agrees)?;
    }
    Ok(())
}

// Replays the files, each named by h and a digit, up to the first that isn't there.
fn replay_files<R: Print + Files + AllocGlobal>(rt: &R) -> io::Result<()> {
    for k in 0..10u8 {
        let name = format!(in rt.alloc(); "h{k}")?;
        let Some(text) = hex_fields::read_file(rt, name.as_str())? else {
            break;
        };
        replay_all(&Unheard(rt), text.as_slice())?;
    }
    Ok(())
}

fn main(rt: HostRuntime) -> io::Result<()> {
    replay_files(&rt)
}
