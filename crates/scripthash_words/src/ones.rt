// Runs of forms of one byte each, as differences below 128 have, behind a first number of any length: the bytes are tested together and
// summed up.
ghost use Rattle.std.specs.Prelude.{◌≡◌, true, ◌+◌, ◌*◌, ◌^◌, ◌≤◌, ◌<◌, length};
ghost use Rattle.scripthash_words.specs.Words.{OnesAt, RestRead};

use crate::first::First;
use crate::values::sum_up;

// Whether each of some bytes is a form above 0: the lowest and the highest tell it.
fn all_ones(bytes: &[u8]) -> bool
    ensures { result ≡ true → OnesAt bytes.now 0 (length bytes.now) }
{
    let mut low = u8::MAX;
    let mut high = 0;
    for b in bytes {
        low = low.min(*b);
        high = high.max(*b);
    }
    0 < low && high < 128
}

// Fills out with the numbers behind a stream's first, where each takes one byte: tells the place behind them, or 0 and leaves out.
pub fn read_ones(buf: &[u8], first: First, out: &mut [u64]) -> usize
    requires { (first.len ≤ length buf.now) × (length out.old ≤ 65535) × (first.fk + 2 ^ 32 * length out.old < 2 ^ 63) }
    ensures { RestRead result buf.now first.len first.fk (length out.old) (first.fk + 2 ^ 32 * length out.old + 1) out.old out.new 0 }
{
    if buf.len() - first.len < out.len() {
        return 0;
    }
    let ones = &buf[first.len..first.len + out.len()];
    if !all_ones(ones) {
        return 0;
    }
    sum_up(ones, first.fk, out);
    first.len + out.len()
}
