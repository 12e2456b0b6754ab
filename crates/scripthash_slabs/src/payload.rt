// Slab payloads: how many numbers, in two bytes, and then their stream.
ghost use Rattle.std.specs.Prelude.{◌≡◌, length};
ghost use Rattle.error.specs.Refusal.{answered};
ghost use Rattle.scripthash_stream.specs.Stream.{after_decode};
ghost use Rattle.scripthash_slabs.specs.Slab.{encode_slab, after_encode_slab, decode_slab, slab_list_of};
ghost use Rattle.scripthash_stream.specs.Answers.{bytes_answer};
ghost use Rattle.scripthash_slabs.specs.Answers.{slab_answer};

use error::Refusal;
use scripthash_stream::MAX_OFFERED;

// What reading a slab's payload tells: how many numbers it has, how many bytes it takes and how many of the numbers are padded.
#[derive(Clone, Copy, Debug, PartialEq, Eq)]
pub struct SlabPayload {
    pub used: usize,
    pub len: usize,
    pub padded: usize,
}

// Writes the payload of an offered list to the start of out and leaves the rest, or leaves all of out where it is refused. The stream goes
// into the part after the first two bytes.
pub fn encode_slab_payload_into(out: &mut [u8], fks: &[u64]) -> Result<usize, Refusal>
    ensures answer { bytes_answer result ≡ encode_slab (length out.old) fks.now }
    ensures bytes { out.new
        ≡ after_encode_slab out.old fks.now (encode_slab (length out.old) fks.now) }
{
    if MAX_OFFERED < fks.len() {
        return Err(Refusal::TooManyOffered);
    }
    if out.len() < 2 {
        return Err(Refusal::SlabTooShort);
    }
    let len = scripthash_stream::encode_fk_delta_stream_into(&mut out[2..], fks)?;
    buffer::put_u16(out, 0, fks.len() as u16);
    Ok(2 + len)
}

// Reads a slab's payload into the start of out; bytes after the payload are ignored.
pub fn decode_slab_payload_into(buf: &[u8], out: &mut [u64]) -> Result<SlabPayload, Refusal>
    ensures answer { slab_answer result
        ≡ answered (slab_list_of buf.now) (decode_slab (length out.old) buf.now) }
    ensures list { out.new ≡ after_decode out.old (decode_slab (length out.old) buf.now) }
{
    if buf.len() < 2 {
        return Err(Refusal::SlabTooShort);
    }
    let used = usize::from(buffer::get_u16(buf, 0));
    let read = scripthash_scan::decode_fk_delta_stream_into(&buf[2..], used, out)?;
    Ok(SlabPayload {
        used,
        len: 2 + read.taken,
        padded: read.padded,
    })
}
