// Streams that nobody judged, read by words into a lent list, which stays as it is where they aren't sound.
// 0 bytes tell that nothing was read: what is promised to other crates, ShortRead, has it so.
ghost use Rattle.std.specs.Prelude.{◌≡◌, ◌+◌, ◌*◌, ◌^◌, ◌≤◌, ◌<◌, length};
ghost use Rattle.scripthash_stream.specs.Stream.{scan};
ghost use Rattle.scripthash_forms.specs.Quick.{ShortRead};
ghost use Rattle.scripthash_words.specs.Words.{FirstNumber, RestRead};

use crate::first::{First, first_number};
use crate::look::{ones_early, words_pay};
use crate::ones::read_ones;
use crate::starts::{find_starts, place_before};
use crate::values::{sum_up, take_values};
use scripthash_stream::BIT_63;

// How many numbers the shorter list of words is for.
const FEW: usize = 55;

// More than 255 differences of up to 32 bits add up to.
const SPAN: u64 = 0x100_0000_0000;

// Fills out with the numbers behind a stream's first, through a list of words: tells the place behind their forms, or 0 and leaves out.
fn read_rest(buf: &[u8], first: First, words: &mut [u32], out: &mut [u64]) -> usize
    requires { FirstNumber first.fk first.len buf.now × (length out.old + 9 ≤ length words.old)
        × (length out.old ≤ 255) × (first.fk + 2 ^ 32 * length out.old < 2 ^ 63) }
    ensures { RestRead result buf.now first.len first.fk (length out.old) (first.fk + 2 ^ 32 * length out.old + 1) out.old out.new 0 }
{
    let n = out.len();
    let got = find_starts(buf, first.len, n + 1, words);
    if got.count < n {
        return 0;
    }
    let Some(end) = place_before(buf, first.len, got.at, got.count - n) else {
        return 0;
    };
    let taken = &mut words[..n];
    if take_values(taken) != 0 {
        return 0;
    }
    sum_up(taken, first.fk, out);
    end
}

// The same through a list of N words on the stack.
fn read_through<const N: usize>(buf: &[u8], first: First, out: &mut [u64]) -> usize
    requires { FirstNumber first.fk first.len buf.now × (length out.old + 9 ≤ N) × (N ≤ 264)
        × (first.fk + 2 ^ 32 * length out.old < 2 ^ 63) }
    ensures { RestRead result buf.now first.len first.fk (length out.old) (first.fk + 2 ^ 32 * length out.old + 1) out.old out.new 0 }
{
    let mut words = [0u32; N];
    read_rest(buf, first, &mut words, out)
}

// The same for up to 255 numbers, for few of them with a shorter list of words: a longer one is cleared by a call.
fn read_many(buf: &[u8], first: First, out: &mut [u64]) -> usize
    requires { FirstNumber first.fk first.len buf.now × (length out.old ≤ 255)
        × (first.fk + 2 ^ 32 * length out.old < 2 ^ 63) }
    ensures { RestRead result buf.now first.len first.fk (length out.old) (first.fk + 2 ^ 32 * length out.old + 1) out.old out.new 0 }
{
    if out.len() <= FEW {
        return read_through::<64>(buf, first, out);
    }
    read_through::<264>(buf, first, out)
}

// The same by bytes where each of the first is a form, else by words where the lengths of forms differ.
fn read_behind(buf: &[u8], first: First, out: &mut [u64]) -> usize
    requires { FirstNumber first.fk first.len buf.now × (length out.old ≤ 255)
        × (first.fk + 2 ^ 32 * length out.old < 2 ^ 63) }
    ensures { RestRead result buf.now first.len first.fk (length out.old) (first.fk + 2 ^ 32 * length out.old + 1) out.old out.new 0 }
{
    let behind = &buf[first.len..];
    if ones_early(behind) {
        return read_ones(buf, first, out);
    }
    if !words_pay(behind, out.len()) {
        return 0;
    }
    read_many(buf, first, out)
}

// Reads a stream of up to 256 numbers, where its forms have one byte each or differ in length: tells the bytes that it takes where its last
// number is below top, and out has the numbers at its start; or 0 and leaves out. Sums stay so far below the limits that none is tested.
pub fn read_by_words(buf: &[u8], n: usize, top: u64, out: &mut [u64]) -> usize
    requires { (0 < n) × (n ≤ 256) × (n ≤ length out.old) }
    ensures { ShortRead result top out.old out.new (scan n buf.now) }
{
    let Some(first) = first_number(buf) else {
        return 0;
    };
    if BIT_63 <= first.fk + SPAN {
        return 0;
    }
    if top <= first.fk + SPAN {
        return 0;
    }
    let end = read_behind(buf, first, &mut out[1..n]);
    if 0 < end {
        out[0] = first.fk;
    }
    end
}
