// Streams written: an offered list is judged and measured, then the forms of its differences are written.
ghost use Rattle.std.specs.Prelude.{◌≡◌, ◌+◌, ◌-◌, ◌^◌, ◌≤◌, ◌<◌, [], ◌∷◌, length};
ghost use Rattle.error.specs.Refusal.{accepted};
ghost use Rattle.compact.specs.Uleb128.{uleb_len, shortest};
ghost use Rattle.buffer.specs.Bytes.{overwrite};
ghost use Rattle.scripthash_stream.specs.Stream.{Rising, stream, stream_len, judged, encode_stream, after_encode};
ghost use Rattle.scripthash_stream.specs.Answers.{bytes_answer};

use crate::stream::BIT_63;
use error::Refusal;

// The length of the form that the number fk takes behind prev, or its refusal.
fn offered_number(prev: u64, fk: u64) -> Result<usize, Refusal>
    requires { prev < 2 ^ 63 }
    ensures { bytes_answer result ≡ judged prev (fk ∷ []) (accepted (uleb_len (fk - prev))) }
{
    if fk <= prev {
        if prev == 0 {
            return Err(Refusal::OfferedFirstZero);
        }
        return Err(Refusal::OfferedNotRising);
    }
    if BIT_63 <= fk {
        return Err(Refusal::OfferedBit63);
    }
    Ok(compact::uleb128_len(fk - prev))
}

// Judges an offered list number by number, and measures its stream.
fn measure_fks(fks: &[u64]) -> Result<usize, Refusal>
    ensures { bytes_answer result ≡ judged 0 fks.now (accepted (stream_len fks.now)) }
{
    let mut prev: u64 = 0;
    let mut len: usize = 0;
    for &fk in fks {
        len += offered_number(prev, fk)?;
        prev = fk;
    }
    Ok(len)
}

// Writes the shortest form of d at an offset of out, and tells its length. Forms of one byte and of two take short paths.
pub fn put_form(out: &mut [u8], off: usize, d: u64) -> usize
    requires { off + uleb_len d ≤ length out.old }
    ensures len { result ≡ uleb_len d }
    ensures bytes { out.new ≡ overwrite out.old off (shortest d) }
{
    if d < 128 {
        out[off] = d as u8;
        return 1;
    }
    if d < 16384 {
        out[off] = (d % 128) as u8 + 128;
        out[off + 1] = (d / 128) as u8;
        return 2;
    }
    compact::put_uleb128(&mut out[off..], d)
}

// Writes the stream of a rising list that fits to the start of out.
pub fn put_fks(out: &mut [u8], fks: &[u64])
    requires { Rising (2 ^ 63) 0 fks.now × (stream_len fks.now ≤ length out.old) }
    ensures { out.new ≡ overwrite out.old 0 (stream fks.now) }
{
    let mut prev: u64 = 0;
    let mut off: usize = 0;
    for &fk in fks {
        off += put_form(out, off, fk - prev);
        prev = fk;
    }
}

// Writes the stream of an offered list to the start of out and leaves the rest, or leaves all of out where the list is refused or
// doesn't fit: one pass that judges and measures, and one that writes.
pub fn encode_fk_delta_stream_into(out: &mut [u8], fks: &[u64]) -> Result<usize, Refusal>
    ensures answer { bytes_answer result ≡ encode_stream (length out.old) fks.now }
    ensures bytes { out.new
        ≡ after_encode out.old fks.now (encode_stream (length out.old) fks.now) }
{
    let len = measure_fks(fks)?;
    if out.len() < len {
        return Err(Refusal::DoesNotFit);
    }
    put_fks(out, fks);
    Ok(len)
}
