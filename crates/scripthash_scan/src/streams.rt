// Streams scanned and read: quickly where that can be, else number by number, which tells a refusal.
ghost use Rattle.std.specs.Prelude.{◌≡◌, length};
ghost use Rattle.error.specs.Refusal.{answered};
ghost use Rattle.scripthash_stream.specs.Stream.{end_from, scan, decode_stream, after_decode, stream_told};
ghost use Rattle.scripthash_stream.specs.Answers.{scan_answer, bytes_answer, stream_read_answer};

use error::Refusal;
use scripthash_stream::{Scanned, StreamRead};

// The most numbers of a slab: so many are read in one pass through a list on the stack.
pub const SLAB_MOST: usize = 256;

// The most numbers that are read in one pass in parts.
pub const PARTS_MOST: usize = 4096;

// Scans a stream of n numbers at the start of buf: quickly where that can be, else number by number, which tells a refusal.
pub fn scan_fk_delta_stream(buf: &[u8], n: usize) -> Result<Scanned, Refusal>
    ensures { scan_answer result ≡ answered (end_from 0) (scan n buf.now) }
{
    let end = crate::quick::scan_quickly(buf, n);
    if 0 < end.taken {
        return Ok(Scanned {
            taken: end.taken,
            last: end.last,
        });
    }
    scripthash_stream::scan_by_number(buf, n)
}

// Whether a stream of n numbers is scanned first and then read: it is long, or longer than a slab's and its early forms are such.
fn scanned_first(buf: &[u8], n: usize) -> bool {
    if n <= SLAB_MOST {
        return false;
    }
    if PARTS_MOST < n {
        return true;
    }
    scripthash_words::better_scanned(buf)
}

// Reads a stream of n numbers at the start of buf into the start of out: scans it, and then fills the list.
fn scan_and_fill(buf: &[u8], n: usize, out: &mut [u64]) -> Result<usize, Refusal>
    ensures answer { bytes_answer result ≡ answered (λ s. s.taken) (decode_stream (length out.old) n buf.now) }
    ensures list { out.new
        ≡ after_decode out.old (decode_stream (length out.old) n buf.now) }
{
    let scanned = scan_fk_delta_stream(buf, n)?;
    if out.len() < n {
        return Err(Refusal::ListTooShort);
    }
    crate::fill::fill_fk_delta_stream(buf, n, out);
    Ok(scanned.taken)
}

// The same quickly where that can be: in one pass, or scanned first; else in two passes number by number, which tell a refusal.
fn read_stream(buf: &[u8], n: usize, out: &mut [u64]) -> Result<usize, Refusal>
    ensures answer { bytes_answer result ≡ answered (λ s. s.taken) (decode_stream (length out.old) n buf.now) }
    ensures list { out.new
        ≡ after_decode out.old (decode_stream (length out.old) n buf.now) }
{
    if scanned_first(buf, n) {
        return scan_and_fill(buf, n, out);
    }
    let taken = crate::quick::decode_quickly(buf, n, out);
    if 0 < taken {
        return Ok(taken);
    }
    scripthash_stream::decode_in_two_passes(buf, n, out)
}

// Reads a stream of n numbers at the start of buf into the start of out: how many bytes it takes, and how many numbers are padded. These
// are counted once the stream is read; where every form has one byte there is nothing to count.
pub fn decode_fk_delta_stream_into(
    buf: &[u8],
    n: usize,
    out: &mut [u64],
) -> Result<StreamRead, Refusal>
    ensures answer { stream_read_answer result
        ≡ answered (stream_told n buf.now) (decode_stream (length out.old) n buf.now) }
    ensures list { out.new
        ≡ after_decode out.old (decode_stream (length out.old) n buf.now) }
{
    let taken = read_stream(buf, n, out)?;
    Ok(StreamRead {
        taken,
        padded: scripthash_stream::count_padded(buf, n, taken),
    })
}
