// The text of answers that programs replay: lines of fields in hexadecimal, divided by bars, and what their buffers and lists have to hold.
#![tactic(auto)]

ghost use Rattle.std.specs.Prelude.{◌<◌, ◌≤◌, length};

use std::io::ErrorKind;
use std::rt::Files;
use std::{fs, io};
use text::Pieces;

// The text of a file; nothing where there is no such file.
pub fn read_file<R: Files + AllocGlobal>(rt: &R, name: &str) -> io::Result<Option<Vec<u8>>> {
    match fs::read(rt, name) {
        Ok(text) => Ok(Some(text)),
        Err(e) if e.kind() == ErrorKind::NotFound => Ok(None),
        Err(e) => Err(e),
    }
}

// The title on a line that has '=' and a title, in place of fields. The title of an empty line is empty.
pub fn title(line: &[u8]) -> Option<&[u8]> {
    match line {
        [] => Some(line),
        [b'=', title @ ..] => Some(title),
        _ => None,
    }
}

// The bytes of s from one index to another; none where that leaves s.
pub fn part(s: &[u8], from: usize, to: usize) -> &[u8] {
    s.get(from..to).unwrap_or(&[])
}

// The field of a line that stands behind so many bars; none where it has fewer.
pub fn field(line: &[u8], bars: usize) -> &[u8] {
    line.split(|b| *b == b'|').nth(bars).unwrap_or(&[])
}

// The value of a hexadecimal digit, and 0 of another byte.
// The library's `to_digit` takes capital letters for digits, too.
fn digit(b: u8) -> u8
    ensures { result < 16 }
{
    match b {
        b'0'..=b'9' => b - b'0',
        b'a'..=b'f' => b - b'a' + 10,
        _ => 0,
    }
}

// The byte that two hexadecimal digits write.
fn byte(high: u8, low: u8) -> u8 {
    digit(high) * 16 + digit(low)
}

// The number that hexadecimal digits write, of which the last 16 count; 0 where there are none.
// The library's `from_str_radix` takes a sign and capital letters, and refuses what isn't a number.
pub fn hex(s: &[u8]) -> u64 {
    s.iter().fold(
        0,
        |value: u64, b| value % 0x1000_0000_0000_0000 * 16 + u64::from(digit(*b)),
    )
}

// Puts a number and so many more, each a step above the one before, to the start of out, as far as it reaches. Tells how many were put.
fn put_numbers(out: &mut [u64], first: u64, step: u64, more: u64) -> usize
    ensures { result ≤ length out.old }
{
    let count = out.len().min((more as usize).saturating_add(1));
    let mut n = first;
    for place in out[..count].iter_mut() {
        *place = n;
        n = n.wrapping_add(step);
    }
    count
}

// Puts the numbers of an item, which is a number or a number, a step and how many more, divided by colons. Tells how many were put.
fn put_item(item: &[u8], out: &mut [u64]) -> usize
    ensures { result ≤ length out.old }
{
    let mut parts = item.splitn(3, |b| *b == b':');
    let first = parts.next().map_or(0, hex);
    let step = parts.next().map_or(0, hex);
    let more = parts.next().map_or(0, hex);
    put_numbers(out, first, step, more)
}

// Puts the numbers of a field, a space after each item, to the start of out, and tells how many.
pub fn numbers(s: &[u8], out: &mut [u64]) -> usize
    ensures { result ≤ length out.old }
{
    let mut count = 0;
    for item in Pieces::new(s, b' ') {
        count += put_item(item, &mut out[count..]);
    }
    count
}

// The first numbers of a field, and 0 in place of those that it doesn't have.
pub fn first_numbers<const N: usize>(s: &[u8]) -> [u64; N] {
    let mut first = [0u64; N];
    numbers(s, &mut first);
    first
}

// Puts the bytes of a field to the start of out, by runs of four digits: how often a byte stands, less one, and the byte.
pub fn bytes(s: &[u8], out: &mut [u8]) {
    let mut count = 0;
    let (runs, _) = s.as_chunks::<4>();
    for [a, b, c, d] in runs {
        let rest = &mut out[count..];
        let run = rest.len().min(1 + usize::from(byte(*a, *b)));
        rest[..run].fill(byte(*c, *d));
        count += run;
    }
}

// Copies numbers to the start of a list, as far as it reaches.
pub fn put(from: &[u64], to: &mut [u64]) {
    let count = from.len().min(to.len());
    to[..count].copy_from_slice(&from[..count]);
}
