// Streams scanned without reading each form by itself: where many forms end, how long they are and what they add up to is found by plain
// loops over bytes, each with one simple job, of which the compiler makes loops over many bytes at a time.
ghost use Rattle.std.specs.Prelude.{◌≡◌, cond, ℕ, ◌+◌, ◌-◌, ◌*◌, ◌^◌, ◌≤◌, ◌<◌, length, drop, get_or, slice_index, IfSome};
ghost use Rattle.error.specs.Refusal.{answered};
ghost use Rattle.compact.specs.Uleb128.{goes_on};
ghost use Rattle.scripthash_stream.specs.Stream.{scan, end_from, ends_from};
ghost use Rattle.scripthash_forms.specs.Quick.{QuickEnd};
ghost use Rattle.scripthash_scan.specs.Weights.{behind_by, weighed_by, weigh_sums, weighed, five_go_on, Lacks, Longest};

use crate::ends::end_of;
use crate::stretch::Stretch;
use scripthash_forms::{StreamEnd, sum_forms};
use scripthash_stream::BIT_63;

// The most bytes that are weighed.
const MOST_BYTES: usize = 1048576;

// The most bytes that are weighed together: so many pieces fit a sum of 16 bits.
const BLOCK: usize = 512;

// A piece where a byte before it goes on, else 0.
fn behind(piece: u8, before: u8) -> u8
    ensures { (result ≡ cond (goes_on before) piece 0) × (result ≤ piece) }
{
    if before < 128 { 0 } else { piece }
}

// What a piece weighs behind no byte of its form, behind one, and so on.
const WEIGHTS: [u64; 5] = [1, 127, 16256, 2080768, 266338304];

// What the byte at a place adds to each of some sums: its piece, where as many bytes of its form stand before it as sums before that one.
fn pieces_at<const N: usize>(buf: &[u8], i: usize) -> [u8; N]
    requires { (0 < N) × (N ≤ i + 1) × (i < length buf.now) }
    ensures { (k : ℕ) → k < N → (slice_index result k ≡ behind_by k buf.now i) × (slice_index result k ≤ 127) }
{
    let mut pieces = [buf[i] % 128; N];
    for k in 1..N {
        pieces[k] = behind(pieces[k - 1], buf[i - k]);
    }
    pieces
}

// Adds the pieces of two bytes to the sums: two pieces are summed up in one byte first.
fn add_both<const N: usize>(sums: &mut [u16; N], p: &[u8; N], q: &[u8; N])
    requires { (k : ℕ) → k < N → (slice_index p.now k + slice_index q.now k < 2 ^ 8)
        × (slice_index sums.old k + (slice_index p.now k + slice_index q.now k) < 2 ^ 16) }
    ensures sums { (k : ℕ) → k < N → slice_index sums.new k ≡ slice_index sums.old k + (slice_index p.now k + slice_index q.now k) }
    ensures size { length sums.new ≡ N }
{
    for k in 0..N {
        sums[k] += u16::from(p[k] + q[k]);
    }
}

// What sums of pieces weigh, each of pieces behind one byte more of their form.
fn weight_of<const N: usize>(sums: &[u16; N]) -> u64
    requires { N ≤ 5 }
    ensures { result ≡ weigh_sums N sums.now }
{
    let mut sum: u64 = 0;
    for k in 0..N {
        sum += WEIGHTS[k] * u64::from(sums[k]);
    }
    sum
}

// The longest form to look for first: where forms take more than two bytes each, one of them has three.
fn likely(bytes: usize, count: usize) -> usize {
    if bytes / 2 <= count { 2 } else { 3 }
}

impl Stretch<'_> {
    // The weights of at most 512 bytes of forms of up to N bytes: a byte of each half at a time, and a last byte that is left over by itself.
    fn weigh<const N: usize>(&self) -> u64
        requires { (0 < N) × (N ≤ 5) × (self.now.to ≤ self.now.from + 512) }
        ensures { (weighed_by N self.now.buf.now self.now.from + result ≡ weighed_by N self.now.buf.now self.now.to)
            × (result + 2 ^ 35 * self.now.from ≤ 2 ^ 35 * self.now.to) }
    {
        let buf = self.buf;
        let half = (self.to - self.from) / 2;
        let mut sums = [0u16; N];
        for i in self.from..self.from + half {
            let p = pieces_at::<N>(buf, i);
            let q = pieces_at::<N>(buf, i + half);
            add_both(&mut sums, &p, &q);
        }
        if self.from + 2 * half < self.to {
            let p = pieces_at::<N>(buf, self.to - 1);
            add_both(&mut sums, &p, &[0; N]);
        }
        weight_of(&sums)
    }

    // The weights of at most 512 bytes of forms, by the longest.
    fn weigh_forms(&self, longest: usize) -> u64
        requires { (self.now.to ≤ self.now.from + 512) × Longest self.now.buf.now self.now.from self.now.to longest }
        ensures { (weighed self.now.buf.now self.now.from + result ≡ weighed self.now.buf.now self.now.to)
            × (result + 2 ^ 35 * self.now.from ≤ 2 ^ 35 * self.now.to) }
    {
        if longest <= 2 {
            return self.weigh::<2>();
        }
        if longest <= 3 {
            return self.weigh::<3>();
        }
        self.weigh::<5>()
    }

    // The weights of so many forms, the sum of their differences, or none where they can't be weighed. Each block is weighed by its own longest
    // form, or that of the one before it.
    fn weigh_blocks(&self, count: usize) -> Option<u64>
        requires { (self.now.to ≤ self.now.from + 2 ^ 20) × (get_or self.now.buf.now (self.now.from - 1) 0 < 128) }
        ensures { IfSome result (λ more. (weighed self.now.buf.now self.now.from + more ≡ weighed self.now.buf.now self.now.to)
            × Lacks self.now.buf.now (five_go_on self.now.buf.now) self.now.from self.now.to) }
    {
        let mut sum: u64 = 0;
        let mut longest = likely(self.to - self.from, count);
        for from in (self.from..self.to).step_by(BLOCK) {
            let block = Stretch {
                buf: self.buf,
                from,
                to: from + (self.to - from).min(BLOCK),
            };
            longest = block.longest_form(longest)?;
            sum += block.weigh_forms(longest);
        }
        Some(sum)
    }
}

// Scans so many forms behind prev, from a place with a form's end before it: tells where they end, or nothing where they can't be weighed.
fn scan_rest(buf: &[u8], from: usize, prev: u64, count: usize) -> Option<StreamEnd>
    requires { (4 ≤ from) × (from ≤ length buf.now) × (get_or buf.now (from - 1) 0 < 128) × (prev < 2 ^ 63) }
    ensures { IfSome result (λ end. QuickEnd end.taken end.last (ends_from from prev count (drop from buf.now))) }
{
    let to = end_of(buf, from, count)?;
    if MOST_BYTES < to - from || 128 <= buf[to - 1] {
        return None;
    }
    let more = Stretch { buf, from, to }.weigh_blocks(count)?;
    if BIT_63 - prev <= more {
        return None;
    }
    Some(StreamEnd {
        taken: to,
        last: prev + more,
    })
}

// How many forms to read singly, so that four bytes lie behind: one where the first number has four bytes or more.
fn leading(buf: &[u8]) -> usize
    ensures { (1 ≤ result) × (result ≤ 4) }
{
    if 3 <= buf.len() && buf[0..3].iter().all(|b| 128 <= *b) {
        1
    } else {
        4
    }
}

// Scans a stream of n numbers, four at least, by reading its first forms and weighing the others: tells where it ends, or nothing where it
// can't be scanned so.
pub fn scan_by_weights(buf: &[u8], n: usize) -> Option<StreamEnd>
    requires { 4 ≤ n }
    ensures { IfSome result (λ end. QuickEnd end.taken end.last (answered (end_from 0) (scan n buf.now))) }
{
    let lead = leading(buf);
    let mut space = [0u64; 1];
    let first = sum_forms(buf, 0, 0, lead, &mut space);
    let from = first.taken;
    if from < 4 || 128 <= buf[from - 1] {
        return None;
    }
    scan_rest(buf, from, first.last, n - lead)
}
