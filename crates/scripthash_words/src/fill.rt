// Streams that scan, written by words to a lent list.
ghost use Rattle.std.specs.Prelude.{◌≡◌, true, ◌+◌, ◌-◌, ◌*◌, ◌^◌, ◌≤◌, ◌<◌, length, take, drop, IfSome};
ghost use Rattle.buffer.specs.Bytes.{overwrite};
ghost use Rattle.error.specs.Refusal.{accepted};
ghost use Rattle.scripthash_stream.specs.Stream.{Scan, scan_from, scan};
ghost use Rattle.scripthash_words.specs.Words.{FirstNumber, words_at, values_in, AllEnded, running_from, Filling};

use crate::first::{First, first_number};
use crate::look::{ones_early, words_pay};
use crate::ones::read_ones;
use crate::starts::find_starts;
use crate::values::{sum_up, take_values};
use scripthash_stream::MAX_OFFERED;

// Half the range of numbers: behind a number below it none of a stream's one-byte differences leads to 2 ^ 63.
const HALF_RANGE: u64 = 0x4000_0000_0000_0000;

// How many words are found at a time: more would take more of the stack that an append has.
const PART: usize = 128;

// What a part gave: the place up to which starts were found, the last number, and how many numbers were written.
#[derive(Clone, Copy)]
struct Filled {
    at: usize,
    last: u64,
    count: usize,
}

// Writes the numbers of the next part behind prev to out, from a place on, where there are some and each can be.
fn fill_part(
    buf: &[u8],
    from: usize,
    prev: u64,
    words: &mut [u32],
    out: &mut [u64],
    at: usize,
) -> Option<Filled>
    requires { (0 < from) × (from ≤ length buf.now) × (length words.old ≡ 136) × (at ≤ length out.old)
        × (prev + 2 ^ 32 * (length out.old - at) < 2 ^ 64) }
    ensures { (length words.new ≡ 136) × (length out.new ≡ length out.old)
        × IfSome result (λ part. (0 < part.count) × (part.count ≤ length out.old - at)
        × (from ≤ part.at) × (part.at ≤ length buf.now) × (part.last ≤ prev + 2 ^ 32 * part.count)
        × Filling buf.now from prev (length out.old - at) out.old at part.at part.last (length out.old - at - part.count) out.new
        (at + part.count)) }
{
    let left = out.len() - at;
    let got = find_starts(buf, from, left.min(PART), words);
    let m = got.count.min(left);
    let part = &mut words[..m];
    if m == 0 || take_values(part) != 0 {
        return None;
    }
    let last = sum_up(part, prev, &mut out[at..at + m]);
    Some(Filled {
        at: got.at,
        last,
        count: m,
    })
}

// Fills out with the numbers behind a stream's first, part by part through a list of words; tells whether each part could be.
fn fill_parts(buf: &[u8], first: First, words: &mut [u32], out: &mut [u64]) -> bool
    requires { FirstNumber first.fk first.len buf.now × (length words.old ≡ 136) × (first.fk + 2 ^ 32 * length out.old < 2 ^ 64) }
    ensures { (length out.new ≡ length out.old)
        × (result ≡ true → AllEnded (take (length out.old) (words_at buf.now first.len))
        × (out.new ≡ overwrite out.old 0 (running_from first.fk (values_in (take (length out.old) (words_at buf.now first.len)))))) }
{
    let mut i = first.len;
    let mut sum = first.fk;
    let mut done: usize = 0;
    // A part has as many numbers as starts were found for it, so that no range counts the turns.
    while done < out.len() {
        let Some(got) = fill_part(buf, i, sum, words, out, done) else {
            return false;
        };
        i = got.at;
        sum = got.last;
        done += got.count;
    }
    true
}

// The same with the list of words on the stack.
fn fill_rest(buf: &[u8], first: First, out: &mut [u64]) -> bool
    requires { FirstNumber first.fk first.len buf.now × (first.fk + 2 ^ 32 * length out.old < 2 ^ 64) }
    ensures { (length out.new ≡ length out.old)
        × (result ≡ true → AllEnded (take (length out.old) (words_at buf.now first.len))
        × (out.new ≡ overwrite out.old 0 (running_from first.fk (values_in (take (length out.old) (words_at buf.now first.len)))))) }
{
    let mut words = [0u32; 136];
    fill_parts(buf, first, &mut words, out)
}

// Fills out with the numbers behind a stream's first, where each takes one byte; tells whether it did.
fn fill_ones(buf: &[u8], first: First, out: &mut [u64]) -> bool
    requires { FirstNumber first.fk first.len buf.now × (length out.old ≤ 65535) }
    ensures { (length out.new ≡ length out.old)
        × (result ≡ true → (s : Scan) → scan_from first.fk (length out.old) (drop first.len buf.now) ≡ accepted s
        → out.new ≡ overwrite out.old 0 s.numbers) }
{
    first.fk < HALF_RANGE && 0 < read_ones(buf, first, out)
}

// Writes the n numbers of a stream that scans to the start of out, where its forms have one byte each or differ in length; tells whether it
// did.
pub fn fill_by_words(buf: &[u8], n: usize, out: &mut [u64]) -> bool
    requires { (0 < n) × (n ≤ length out.old) }
    ensures { (length out.new ≡ length out.old) × (result ≡ true → (s : Scan)
        → scan n buf.now ≡ accepted s
        → out.new ≡ overwrite out.old 0 s.numbers) }
{
    if MAX_OFFERED < n {
        return false;
    }
    let Some(first) = first_number(buf) else {
        return false;
    };
    out[0] = first.fk;
    let rest = &mut out[1..n];
    let behind = &buf[first.len..];
    if ones_early(behind) {
        return fill_ones(buf, first, rest);
    }
    words_pay(behind, n) && fill_rest(buf, first, rest)
}
