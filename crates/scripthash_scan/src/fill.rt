// Streams read straight into a lent list once they are judged, and short ones judged and read in one pass, through a list on the stack.
ghost use Rattle.std.specs.Prelude.{◌≡◌, ◌≤◌, length};
ghost use Rattle.error.specs.Refusal.{accepted};
ghost use Rattle.buffer.specs.Bytes.{overwrite};
ghost use Rattle.scripthash_stream.specs.Stream.{Scan, scan};
ghost use Rattle.scripthash_forms.specs.Quick.{OneByteForms, ShortRead};

use crate::quick::{one_byte_forms, sum_bytes, sum_of_bytes};
use crate::streams::SLAB_MOST;
use scripthash_forms::{copy_fks, sum_forms};
use scripthash_words::{fill_by_words, read_by_words};

// The most numbers that are read form by form where lengths differ: more are read by words, and so few take as long one by one.
const FEW: usize = 16;

// The most numbers that are held in a shorter list on the stack, which is cleared sooner.
const SHORT_LIST: usize = 64;

// Writes the n numbers of a stream that scans to the start of out, where that has room for them; what it writes of another is not told.
pub fn fill_fk_delta_stream(buf: &[u8], n: usize, out: &mut [u64])
    ensures { (s : Scan) → scan n buf.now ≡ accepted s → n ≤ length out.old
        → out.new ≡ overwrite out.old 0 s.numbers }
{
    if out.len() < n {
        return;
    }
    if one_byte_forms(buf, n) {
        sum_bytes(buf, n, out);
        return;
    }
    fill_all(buf, n, &mut out[0..n]);
}

// Writes the n numbers of a stream that scans to a list that has room for no more, form by form.
fn fill_singly(buf: &[u8], n: usize, out: &mut [u64])
    requires { length out.old ≡ n }
    ensures { (s : Scan) → scan n buf.now ≡ accepted s → out.new ≡ s.numbers }
{
    let end = sum_forms(buf, 0, 0, n, out);
    if end.taken == 0 {
        let _ = scripthash_stream::decode_in_two_passes(buf, n, out);
    }
}

// The same by words where there are some numbers and their forms differ in length.
fn fill_all(buf: &[u8], n: usize, out: &mut [u64])
    requires { length out.old ≡ n }
    ensures { (s : Scan) → scan n buf.now ≡ accepted s → out.new ≡ s.numbers }
{
    if n <= FEW {
        fill_singly(buf, n, out);
        return;
    }
    if fill_by_words(buf, n, out) {
        return;
    }
    fill_singly(buf, n, out);
}

// Reads n forms through a list that holds their numbers until the last is known to be below top, and then copies them to the start of out:
// tells the bytes that they take, or 0 and leaves out.
fn read_through(buf: &[u8], n: usize, top: u64, space: &mut [u64], out: &mut [u64]) -> usize
    requires { (n ≤ length space.old) × (n ≤ length out.old) }
    ensures { ShortRead result top out.old out.new (scan n buf.now) }
{
    let end = sum_forms(buf, 0, 0, n, space);
    if end.taken == 0 {
        return 0;
    }
    if top <= end.last {
        return 0;
    }
    copy_fks(space, n, out, 0);
    end.taken
}

// The same through a list on the stack that holds N numbers.
fn read_held<const N: usize>(buf: &[u8], n: usize, top: u64, out: &mut [u64]) -> usize
    requires { (N ≤ 256) × (n ≤ N) × (n ≤ length out.old) }
    ensures { ShortRead result top out.old out.new (scan n buf.now) }
{
    let mut space = [0u64; N];
    read_through(buf, n, top, &mut space, out)
}

// The same for 256 forms at most, by the least list that holds them: a list is cleared before it is used.
fn read_singly(buf: &[u8], n: usize, top: u64, out: &mut [u64]) -> usize
    requires { (n ≤ 256) × (n ≤ length out.old) }
    ensures { ShortRead result top out.old out.new (scan n buf.now) }
{
    if n <= SHORT_LIST {
        return read_held::<SHORT_LIST>(buf, n, top, out);
    }
    read_held::<SLAB_MOST>(buf, n, top, out)
}

// The same for 256 forms at most, by words where there are some and their lengths differ. Each form has a byte at least.
pub fn read_forms(buf: &[u8], n: usize, top: u64, out: &mut [u64]) -> usize
    requires { (n ≤ 256) × (n ≤ length out.old) }
    ensures { ShortRead result top out.old out.new (scan n buf.now) }
{
    if buf.len() < n {
        return 0;
    }
    if n <= FEW {
        return read_held::<FEW>(buf, n, top, out);
    }
    let taken = read_by_words(buf, n, top, out);
    if 0 < taken {
        return taken;
    }
    read_singly(buf, n, top, out)
}

// The same for forms of one byte each: they are judged, so that no list holds them.
fn read_bytes(buf: &[u8], n: usize, top: u64, out: &mut [u64]) -> usize
    requires { OneByteForms buf.now n × (n ≤ length out.old) }
    ensures { ShortRead result top out.old out.new (scan n buf.now) }
{
    if top <= sum_of_bytes(buf, n) {
        return 0;
    }
    sum_bytes(buf, n, out)
}

// Reads a stream of n numbers in one pass, where they are few or take one byte each: tells the bytes that it takes where its last number is
// below top, and out has the numbers at its start; or 0 and leaves out.
pub fn read_short_stream(buf: &[u8], n: usize, top: u64, out: &mut [u64]) -> usize
    ensures { ShortRead result top out.old out.new (scan n buf.now) }
{
    if n <= out.len() {
        if one_byte_forms(buf, n) {
            return read_bytes(buf, n, top, out);
        }
        if n <= SLAB_MOST {
            return read_forms(buf, n, top, out);
        }
    }
    0
}
