// How long forms are: whether a byte is 0, and how many bytes in a row go on, over all bytes of a block at a time.
ghost use Rattle.std.specs.Prelude.{◌≡◌, true, false, ◌+◌, ◌≤◌, ◌<◌, length, IfSome};
ghost use Rattle.compact.specs.Uleb128.{goes_on};
ghost use Rattle.scripthash_scan.specs.Weights.{Lacks, in_a_row, two_before, three_before, Longest};

use crate::stretch::Stretch;

// The least of the N bytes up to a place, which goes on where each of them does.
fn least_of<const N: usize>(buf: &[u8], i: usize) -> u8
    requires { (N ≤ i + 1) × (i < length buf.now) }
    ensures { goes_on result ≡ in_a_row N buf.now i }
{
    let mut least: u8 = 255;
    for k in 0..N {
        least = least.min(buf[i - k]);
    }
    least
}

impl Stretch<'_> {
    // No byte is 0, and no N of them in a row go on.
    fn look<const N: usize>(&self) -> bool
        requires { N ≤ 5 }
        ensures { result ≡ true → Lacks self.now.buf.now (in_a_row N self.now.buf.now) self.now.from self.now.to }
    {
        let mut least: u8 = 255;
        let mut most: u8 = 0;
        for i in self.from..self.to {
            least = least.min(self.buf[i]);
            most = most.max(least_of::<N>(self.buf, i));
        }
        0 < least && most < 128
    }

    // The bytes of the longest form as far as it matters, 2, 3 or 5, and no less than those of the forms before, or none where a byte is 0 or
    // a form has more than five bytes.
    pub fn longest_form(&self, before: usize) -> Option<usize>
        requires { (before ≤ 2 → two_before self.now.buf.now self.now.from ≡ false)
            × (before ≤ 3 → three_before self.now.buf.now self.now.from ≡ false) }
        ensures { IfSome result (Longest self.now.buf.now self.now.from self.now.to) }
    {
        if before <= 2 && self.look::<2>() {
            return Some(2);
        }
        if before <= 3 && self.look::<3>() {
            return Some(3);
        }
        if self.look::<5>() { Some(5) } else { None }
    }
}
