// Whether words are worth it: where the forms early in a stream all have one length, reading them one by one is quicker, and a form of five
// bytes or more doesn't end in its word. Nothing is promised of the answer: both ways read the same.
ghost use Rattle.std.specs.Prelude.{◌+◌, ◌≤◌, length};

use crate::first::first_number;

// From how many numbers on more than 16 bytes are looked at.
const MANY: usize = 64;

// The bytes that go on, of eight.
const GO_ON: u64 = 0x8080_8080_8080_8080;

// The same where each of the eight belongs to a form of two bytes.
const TWO: u64 = 0x0080_0080_0080_0080;

// The same for three bytes: the first eight bytes from a start on, and the eight behind them.
const THREE: u64 = 0x8080_0080_8000_8080;

const THREE_LATER: u64 = 0x8000_8080_0080_8000;

// The same for four bytes.
const FOUR: u64 = 0x0080_8080_0080_8080;

// Whether 16 bytes that go on or not are those of forms of one length, up to four bytes.
fn alike(first: u64, later: u64) -> bool {
    matches!(
        (first, later),
        (0, 0) | (TWO, TWO) | (THREE, THREE_LATER) | (FOUR, FOUR)
    )
}

// Whether each of the first 16 bytes of some that begin with a form is a form.
pub fn ones_early(bytes: &[u8]) -> bool {
    if bytes.len() < 16 {
        return false;
    }
    (buffer::get_u64(bytes, 0) | buffer::get_u64(bytes, 8)) & GO_ON == 0
}

// The bytes of eight that go on where the three before them do.
fn fourth(bytes: u64) -> u64 {
    bytes & (bytes >> 8) & (bytes >> 16) & (bytes >> 24)
}

// Whether the forms in the first 16 bytes differ in length, and none of five bytes or more is seen there.
fn lengths_differ(bytes: &[u8]) -> bool {
    if bytes.len() < 16 {
        return false;
    }
    let first = buffer::get_u64(bytes, 0) & GO_ON;
    let later = buffer::get_u64(bytes, 8) & GO_ON;
    if alike(first, later) {
        return false;
    }
    fourth(first) | fourth(later) == 0
}

// The bytes of 16 from a place on that go on where the three before them in their eight do.
fn fourth_of_16(bytes: &[u8], i: usize) -> u64
    requires { i + 16 ≤ length bytes.now }
{
    fourth(buffer::get_u64(bytes, i) & GO_ON) | fourth(buffer::get_u64(bytes, i + 8) & GO_ON)
}

// Whether none of five bytes or more is seen in the 48 bytes behind them either: else many words would be kept in vain.
fn stay_short(bytes: &[u8]) -> bool {
    if bytes.len() < 64 {
        return true;
    }
    fourth_of_16(bytes, 16) | fourth_of_16(bytes, 32) | fourth_of_16(bytes, 48) == 0
}

// Whether n numbers, whose forms some bytes begin with, are better read by words.
pub fn words_pay(bytes: &[u8], n: usize) -> bool {
    lengths_differ(bytes) && (n < MANY || stay_short(bytes))
}

// Whether a stream with more numbers than a slab is better scanned first and then read: its early forms have one byte each, or differ in
// length. Where its first number has one byte too, all may, and one pass reads them.
pub fn better_scanned(buf: &[u8]) -> bool {
    let Some(first) = first_number(buf) else {
        return false;
    };
    if first.len < 2 {
        return false;
    }
    let behind = &buf[first.len..];
    ones_early(behind) || words_pay(behind, MANY)
}
