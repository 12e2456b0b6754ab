// Streams read or scanned in one pass: all bytes together where each is a form, or where there are many, else form by form.
ghost use Rattle.std.specs.Prelude.{◌≡◌, true, ◌&&◌, ◌≤◌, length, sum};
ghost use Rattle.error.specs.Refusal.{answered};
ghost use Rattle.compact.specs.Uleb128.{goes_on};
ghost use Rattle.scripthash_stream.specs.Stream.{scan, end_from, decode_stream};
ghost use Rattle.scripthash_forms.specs.Quick.{OneByteForms, Quick, QuickEnd};

use crate::fill::read_forms;
use crate::streams::{PARTS_MOST, SLAB_MOST};
use scripthash_forms::{StreamEnd, decode_parts, sum_forms};
use scripthash_stream::{BIT_63, MAX_OFFERED};

// From how many numbers on a scan weighs forms together.
const MANY: usize = 64;

// From how many numbers on it does so where forms are short.
const MORE: usize = 40;

// From how many numbers on it does so where forms are shorter.
const SOME: usize = 30;

// Each of the first n bytes is a form by itself, and none is 0: their least and their greatest tell it, whatever comes first, so that many
// bytes are looked at at a time.
pub fn one_byte_forms(buf: &[u8], n: usize) -> bool
    ensures { result ≡ true → OneByteForms buf.now n }
{
    if n == 0 || MAX_OFFERED < n || buf.len() < n || 128 <= buf[0] {
        return false;
    }
    let mut low: u8 = 255;
    let mut high: u8 = 0;
    // `all` takes two to three times as long: it stops at the first byte that is no form, so it looks at one at a time.
    for k in 0..n {
        let b = buf[k];
        low = low.min(b);
        high = high.max(b);
    }
    0 < low && high < 128
}

// Writes the sums of n forms of one byte each to the start of out, and tells their bytes.
pub fn sum_bytes(buf: &[u8], n: usize, out: &mut [u64]) -> usize
    requires { OneByteForms buf.now n × (n ≤ length out.old) }
    ensures { (result ≡ n)
        × Quick result out.old out.new (decode_stream (length out.old) n buf.now) }
{
    let mut sum: u64 = 0;
    for k in 0..n {
        sum += u64::from(buf[k]);
        out[k] = sum;
    }
    n
}

// Reads a stream of n numbers in one pass, where that is quicker than two: tells the bytes that they take, or 0 and leaves out.
#[tactic(auto, using(scripthash_forms::proofs::LawsTries::quick_none))]
pub fn decode_quickly(buf: &[u8], n: usize, out: &mut [u64]) -> usize
    ensures { Quick result out.old out.new (decode_stream (length out.old) n buf.now) }
{
    if n <= out.len() {
        if one_byte_forms(buf, n) {
            return sum_bytes(buf, n, out);
        }
        if n <= SLAB_MOST {
            return read_forms(buf, n, BIT_63, out);
        }
        if n <= PARTS_MOST {
            return decode_parts(buf, 0, 0, n, out, 0);
        }
    }
    0
}

// The sum of some bytes.
fn total(bytes: &[u8]) -> u64
    requires { length bytes.now ≤ 65535 }
    ensures { result ≡ sum bytes.now }
{
    bytes.iter().map(|b| u64::from(*b)).sum()
}

// The sum of n forms of one byte each: the last number of their stream.
pub fn sum_of_bytes(buf: &[u8], n: usize) -> u64
    requires { OneByteForms buf.now n }
    ensures { QuickEnd n result (answered (end_from 0) (scan n buf.now)) }
{
    total(&buf[0..n])
}

// Whether forms of one byte and of two are mixed in 16 bytes, of which so many end forms: read one by one, their lengths are often
// mispredicted.
fn mixed(ends: usize) -> bool {
    8 < ends && ends < 16
}

// Whether a stream of n numbers is worth weighing: it is long, or a third of its early bytes end forms, or it is short and its forms are
// mixed.
fn weighs(buf: &[u8], n: usize) -> bool
    ensures { result ≡ true → 4 ≤ n }
{
    if MANY <= n {
        return true;
    }
    if n < SOME {
        return false;
    }
    let ends = crate::ends::ends_early(buf);
    if n < MORE {
        return mixed(ends);
    }
    5 <= ends
}

// Scans a stream of n numbers: all bytes together where each is a form, or where there are many; else form by form, with room for one
// number, which nobody reads. Tells where it ends, or 0 bytes where it can't be scanned so.
pub fn scan_quickly(buf: &[u8], n: usize) -> StreamEnd
    ensures { QuickEnd result.taken result.last (answered (end_from 0) (scan n buf.now)) }
{
    if one_byte_forms(buf, n) {
        return StreamEnd {
            taken: n,
            last: sum_of_bytes(buf, n),
        };
    }
    if weighs(buf, n) {
        if let Some(end) = crate::weigh::scan_by_weights(buf, n) {
            return end;
        }
    }
    let mut space = [0u64; 1];
    sum_forms(buf, 0, 0, n, &mut space)
}
