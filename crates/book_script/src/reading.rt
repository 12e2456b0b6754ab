// Reading a script line by line from an input, into lent room.
ghost use Rattle.std.specs.Prelude.{◌+◌, ◌≤◌, length};

use crate::reports::{LINE_BYTES, Unread};
use std::io::Read;

// The lines of an input, one after another. Where reading fails the input ends, as at its end.
#[derive(Drop)]
pub struct Lines<'a, R> {
    input: &'a mut R,
    // The longest line with its end.
    room: &'a mut [u8; LINE_BYTES],
    // Where in the room the line begins that comes next, and where what was read ends.
    next: usize,
    end: usize,
    // The line that came last had too many bytes: its rest is to be skipped.
    skips: bool,
    ended: bool,
}

// How a line came, and where in the room it stands without its end.
#[derive(Clone, Copy)]
enum Came {
    // With its end behind it.
    Line { start: usize, stop: usize },
    // At the start of the room, with the end of the input behind it.
    Last { stop: usize },
    // It has too many bytes, of which the rest isn't read yet.
    TooLong,
}

// Reads into room behind its first bytes, by one call that gives what is there, and tells how many bytes came: none at the end of the
// input, or where reading fails.
fn read_behind<R: Read>(input: &mut R, room: &mut [u8; LINE_BYTES], held: usize) -> usize
    ensures { held ≤ length room.old → held + result ≤ length room.old }
{
    let from = held.min(LINE_BYTES);
    match input.read(&mut room[from..]) {
        Ok(count) => count,
        Err(_) => 0,
    }
}

impl<'a, R: Read> Lines<'a, R> {
    // The lines of an input.
    pub fn new(input: &'a mut R, room: &'a mut [u8; LINE_BYTES]) -> Self {
        Lines {
            input,
            room,
            next: 0,
            end: 0,
            skips: false,
            ended: false,
        }
    }

    // A part of what was read.
    fn between(&self, start: usize, stop: usize) -> &[u8] {
        self.room.get(start..stop).unwrap_or(&[])
    }

    // Moves what was read of the line that comes next to the start of the room.
    fn move_down(&mut self) {
        let next = self.next.min(LINE_BYTES);
        self.end = self.end.saturating_sub(next);
        if next != 0 && self.end != 0 {
            self.room.rotate_left(next);
        }
        self.next = 0;
    }

    // Reads a line. Of one that has too many bytes nothing is kept.
    fn read_line(&mut self) -> Came {
        let mut searched = self.next;
        for _ in 0..=LINE_BYTES {
            let found = self
                .between(searched, self.end)
                .iter()
                .position(|b| *b == b'\n');
            if let Some(at) = found {
                let start = self.next;
                let stop = searched.saturating_add(at);
                self.next = stop.saturating_add(1);
                return Came::Line { start, stop };
            }
            self.move_down();
            searched = self.end;
            if searched == LINE_BYTES {
                self.end = 0;
                return Came::TooLong;
            }
            let count = read_behind(self.input, self.room, self.end);
            if count == 0 {
                break;
            }
            self.end = self.end.saturating_add(count);
        }
        self.end = 0;
        Came::Last { stop: searched }
    }

    // Skips the rest of a line that had too many bytes. Where the input ends in it, no more lines come.
    fn skip_rest(&mut self) {
        self.skips = false;
        for _ in 0..u64::MAX {
            match self.read_line() {
                Came::TooLong => {}
                Came::Line { .. } => return,
                Came::Last { .. } => {
                    self.ended = true;
                    return;
                }
            }
        }
    }

    // The next line without its end, where there is one. The last line may have no end. That a line has too many bytes is told before its
    // rest is read.
    pub fn next_line(&mut self) -> Option<Result<&[u8], Unread<'static>>> {
        if self.skips {
            self.skip_rest();
        }
        if self.ended {
            return None;
        }
        match self.read_line() {
            Came::Line { start, stop } => Some(Ok(self.between(start, stop))),
            Came::Last { stop } => {
                self.ended = true;
                Some(Ok(self.between(0, stop)))
            }
            Came::TooLong => {
                self.skips = true;
                Some(Err(Unread::Past {
                    what: "too many bytes on a line",
                    most: LINE_BYTES,
                }))
            }
        }
    }
}
