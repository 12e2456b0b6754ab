// Streams of rising numbers: the first number, then the differences, each as a ULEB128 form.
ghost use Rattle.std.specs.Prelude.{◌≡◌, ◌^◌, ◌≤◌, ◌<◌, length, drop};
ghost use Rattle.error.specs.Refusal.{accepted, answered};
ghost use Rattle.buffer.specs.Bytes.{overwrite};
ghost use Rattle.scripthash_stream.specs.Stream.{Scan, stored_number, next_number, end_from, scan, decode_stream, after_decode};
ghost use Rattle.scripthash_stream.specs.Answers.{next_answer, scan_answer, bytes_answer};

use error::Refusal;

// The most numbers that a slab, a page or a load is offered.
pub const MAX_OFFERED: usize = 65535;

// Bit 63, which no number of a stream has.
pub const BIT_63: u64 = 0x8000_0000_0000_0000;

// The next number of a stream and the length of its form.
#[derive(Clone, Copy, Debug, PartialEq, Eq)]
pub struct NextFk {
    pub fk: u64,
    pub len: usize,
}

// What scanning a stream tells: how many bytes it takes and its last number, 0 where it has none.
#[derive(Clone, Copy, Debug, PartialEq, Eq)]
pub struct Scanned {
    pub taken: usize,
    pub last: u64,
}

// What reading a stream tells: how many bytes it takes and how many of its numbers are padded.
#[derive(Clone, Copy, Debug, PartialEq, Eq)]
pub struct StreamRead {
    pub taken: usize,
    pub padded: usize,
}

// A byte as a difference.
pub fn wide(b: u8) -> u64
    ensures { result ≡ b }
{
    u64::from(b)
}

// The number that the stored difference d, whose form has a length, gives behind prev.
fn stored_number(prev: u64, d: u64, len: usize) -> Result<NextFk, Refusal>
    requires { prev < 2 ^ 63 }
    ensures { next_answer result ≡ stored_number prev (record { value = d; len = len }) }
{
    if d == 0 {
        if prev == 0 {
            return Err(Refusal::StoredFirstZero);
        }
        return Err(Refusal::StoredDifferenceZero);
    }
    let Some(fk) = prev.checked_add(d) else {
        return Err(Refusal::StoredSumOverflow);
    };
    if BIT_63 <= fk {
        return Err(Refusal::StoredBit63);
    }
    Ok(NextFk { fk, len })
}

// The number at an offset of a stream, behind prev. Forms of one byte and of two take short paths.
fn next_fk(buf: &[u8], off: usize, prev: u64) -> Result<NextFk, Refusal>
    requires { (off ≤ length buf.now) × (prev < 2 ^ 63) }
    ensures { next_answer result ≡ next_number prev (drop off buf.now) }
{
    if off < buf.len() {
        let d = u64::from(buf[off]);
        if d < 128 {
            return stored_number(prev, d, 1);
        }
        if off + 1 < buf.len() {
            let e = u64::from(buf[off + 1]);
            if e < 128 {
                return stored_number(prev, d % 128 + 128 * e, 2);
            }
        }
    }
    let form = compact::read_uleb128(&buf[off..])?;
    stored_number(prev, form.value, form.len)
}

// Scans a stream of n numbers at the start of buf number by number: checks each, and tells where the stream ends.
pub fn scan_by_number(buf: &[u8], n: usize) -> Result<Scanned, Refusal>
    ensures { scan_answer result ≡ answered (end_from 0) (scan n buf.now) }
{
    let mut prev: u64 = 0;
    let mut off: usize = 0;
    for _ in 0..n {
        let next = next_fk(buf, off, prev)?;
        prev = next.fk;
        off += next.len;
    }
    Ok(Scanned {
        taken: off,
        last: prev,
    })
}

// Writes the n numbers of a stream to the start of out; where the stream doesn't scan, it stops at the first number that it can't read.
fn fill_fks(buf: &[u8], n: usize, out: &mut [u64])
    requires { n ≤ length out.old }
    ensures { (s : Scan) → scan n buf.now ≡ accepted s
        → out.new ≡ overwrite out.old 0 s.numbers }
{
    let mut prev: u64 = 0;
    let mut off: usize = 0;
    for k in 0..n {
        let Ok(next) = next_fk(buf, off, prev) else {
            return;
        };
        out[k] = next.fk;
        prev = next.fk;
        off += next.len;
    }
}

// Reads a stream of n numbers at the start of buf into the start of out: one pass that checks, and one that writes.
pub fn decode_in_two_passes(buf: &[u8], n: usize, out: &mut [u64]) -> Result<usize, Refusal>
    ensures answer { bytes_answer result ≡ answered (λ s. s.taken) (decode_stream (length out.old) n buf.now) }
    ensures list { out.new
        ≡ after_decode out.old (decode_stream (length out.old) n buf.now) }
{
    let scanned = scan_by_number(buf, n)?;
    if out.len() < n {
        return Err(Refusal::ListTooShort);
    }
    fill_fks(buf, n, out);
    Ok(scanned.taken)
}
