// What the programs read and write as text: where a byte stands, pieces that a byte ends, lists of numbers in decimal, bytes in hexadecimal.
#![tactic(auto)]

ghost use Rattle.std.specs.Prelude.{◌≡◌, ℕ, ◌<◌, ◌≤◌, ◌≢◌, length, slice_index, IsOk};
ghost use Rattle.std.specs.Iterator.{at_most};

use std::fmt::{Formatter, InlineText};
use std::{fmt, io};

// The index of the first b from one index of a text up to another, or that other where there is none.
pub fn find(text: &[u8], start: usize, end: usize, b: u8) -> usize
    requires order { start ≤ end }
    requires within { end ≤ length text.now }
    ensures low { start ≤ result }
    ensures high { result ≤ end }
    ensures before { (k : ℕ) → start ≤ k → k < result → slice_index text.now k ≢ b }
    ensures found { result < end → slice_index text.now result ≡ b }
{
    for i in start..end {
        if text[i] == b {
            return i;
        }
    }
    end
}

// The pieces of a text, each without the byte that ends it. The last piece may have no such byte behind it, and isn't empty then.
#[derive(Clone, Copy)]
pub struct Pieces<'a> {
    rest: &'a [u8],
    end: u8,
}

impl<'a> Pieces<'a> {
    // The pieces of a text that a byte ends.
    pub fn new(text: &'a [u8], end: u8) -> Self {
        Pieces { rest: text, end }
    }
}

impl<'a> Iterator for Pieces<'a> {
    type Item = &'a [u8];

    ghost remaining = { λ s. at_most (length s.rest.now) };

    fn next(&mut self) -> Option<&'a [u8]> {
        let rest = self.rest;
        if rest.is_empty() {
            return None;
        }
        let stop = find(rest, 0, rest.len(), self.end);
        self.rest = rest.get(stop + 1..).unwrap_or(&[]);
        Some(&rest[..stop])
    }
}

// Bytes that are written in hexadecimal, each with a space before it, as a piece of three characters.
#[derive(Clone, Copy)]
pub struct Bytes<'a>(pub &'a [u8]);

impl fmt::Display for Bytes<'_> {
    fn fmt<W: fmt::Write>(&self, f: &mut fmt::Formatter<W>) -> fmt::Result {
        for b in self.0 {
            let piece = InlineText::<3>::of(format_args!(" {b:02X}"));
            f.write_str(piece.as_str())?;
        }
        Ok(())
    }
}

// Numbers that are written in decimal, each with a space before it.
#[derive(Clone, Copy)]
pub struct Numbers<'a>(pub &'a [u64]);

impl fmt::Display for Numbers<'_> {
    fn fmt<W: fmt::Write>(&self, f: &mut fmt::Formatter<W>) -> fmt::Result {
        for n in self.0 {
            write!(f, " {n}")?;
        }
        Ok(())
    }
}

// Standard output, or another output, whose failures are passed over: what can't be written is lost, and the program goes on, with the
// status of what it did. Each piece of a text, which is a number or what stands before, between or behind numbers, is written by itself,
// so that a full pipe loses no more than those for which it has no room.
#[derive(Clone, Copy)]
pub struct Unheard<'a, P>(pub &'a P);

impl<P: Print> fmt::Write for Unheard<'_, P> {
    fn write_str(&mut self, s: &str) -> fmt::Result
        ensures { IsOk result }
    {
        let _ = self.0.write_all(s.as_bytes());
        Ok(())
    }
}

impl<P: Print> Print for Unheard<'_, P> {
    fn print<D: fmt::Display + Drop>(&self, value: D) -> io::Result<()>
        ensures { IsOk result }
    {
        let _ = Formatter::new(Unheard(self.0)).write(value);
        Ok(())
    }

    fn println<D: fmt::Display + Drop>(&self, value: D) -> io::Result<()>
        ensures { IsOk result }
    {
        let _ = Formatter::new(Unheard(self.0)).writeln(value);
        Ok(())
    }

    fn write_all(&self, bytes: &[u8]) -> io::Result<()>
        ensures { IsOk result }
    {
        let _ = self.0.write_all(bytes);
        Ok(())
    }
}
