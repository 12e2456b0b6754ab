// Streams read in one pass: the numbers go through lists that hold them until the last is there.
// The bytes, the place and the number before it stay parameters, and 0 tells that nothing was read: other crates call it so.
ghost use Rattle.std.specs.Prelude.{◌≡◌, ◌+◌, ◌^◌, ◌≤◌, ◌<◌, length, take};
ghost use Rattle.buffer.specs.Bytes.{overwrite};
ghost use Rattle.scripthash_forms.specs.Quick.{QuickPart, scan_at};

use crate::forms::sum_forms;

// Copies the first n numbers of a list to a place of another.
pub fn copy_fks(from: &[u64], n: usize, out: &mut [u64], at: usize)
    requires { (n ≤ length from.now) × (at + n ≤ length out.old) }
    ensures { out.new ≡ overwrite out.old at (take n from.now) }
{
    out[at..at + n].copy_from_slice(&from[..n]);
}

// Reads n forms through a list that holds their numbers until all are read, and then copies them to a place of out: tells the place behind
// the forms, or 0 and leaves out.
fn decode_through(
    buf: &[u8],
    from: usize,
    prev: u64,
    n: usize,
    space: &mut [u64],
    out: &mut [u64],
    at: usize,
) -> usize
    requires { (from ≤ length buf.now) × (prev < 2 ^ 63) × (n ≤ length space.old) × (at + n ≤ length out.old) }
    ensures { QuickPart result out.old out.new at (scan_at from prev n buf.now) }
{
    let end = sum_forms(buf, from, prev, n, space);
    if end.taken == 0 {
        return 0;
    }
    copy_fks(space, n, out, at);
    end.taken
}

// The same from any place and for any count, in parts of 256: each part is held on the stack until those behind it are read.
pub fn decode_parts(
    buf: &[u8],
    from: usize,
    prev: u64,
    n: usize,
    out: &mut [u64],
    at: usize,
) -> usize
    requires { (from ≤ length buf.now) × (prev < 2 ^ 63) × (at + n ≤ length out.old) }
    ensures { QuickPart result out.old out.new at (scan_at from prev n buf.now) }
{
    let mut space = [0u64; 256];
    if n <= 256 {
        return decode_through(buf, from, prev, n, &mut space, out, at);
    }
    let end = sum_forms(buf, from, prev, 256, &mut space);
    let next = end.taken;
    if next == 0 {
        return 0;
    }
    let taken = decode_parts(buf, next, end.last, n - 256, out, at + 256);
    if taken == 0 {
        return 0;
    }
    copy_fks(&space, 256, out, at);
    taken
}
