// Slab payloads.
ghost use Rattle.std.specs.Prelude.{◌≡◌, ◌+◌, length};
ghost use Rattle.error.specs.Refusal.{refusal_of, value_or};
ghost use Rattle.scripthash_stream.specs.Stream.{after_decode};
ghost use Rattle.scripthash_slabs.specs.Slab.{encode_slab, after_encode_slab, slab_padded, decode_slab};

use crate::answers::hand_out;

// Writes the payload of a rising list to the start of out, and tells its length. Refuses 10 to 13, 32, 33.
#[unsafe(no_mangle)]
pub extern "C" fn ouriscado_encode_slab_payload_into(
    out: &mut [u8],
    fks: &[u64],
    len: &mut usize,
) -> u32
    ensures number { result ≡ refusal_of (encode_slab (length out.old) fks.now) }
    ensures bytes { out.new
        ≡ after_encode_slab out.old fks.now (encode_slab (length out.old) fks.now) }
    ensures len { len.new ≡ value_or (λ x. x) (encode_slab (length out.old) fks.now) 0 }
{
    hand_out(scripthash_slabs::encode_slab_payload_into(out, fks), 0, len)
}

// Reads the payload at the start of buf into the start of out, and tells how many numbers it has, how many bytes it takes and how many of
// the numbers are padded. Refuses 11, 17, 18, 20 to 23, 34.
#[unsafe(no_mangle)]
pub extern "C" fn ouriscado_decode_slab_payload_into(
    buf: &[u8],
    out: &mut [u64],
    used: &mut usize,
    len: &mut usize,
    padded: &mut usize,
) -> u32
    ensures number { result ≡ refusal_of (decode_slab (length out.old) buf.now) }
    ensures list { out.new ≡ after_decode out.old (decode_slab (length out.old) buf.now) }
    ensures used { used.new
        ≡ value_or (λ s. length s.numbers) (decode_slab (length out.old) buf.now) 0 }
    ensures len { len.new ≡ value_or (λ s. 2 + s.taken) (decode_slab (length out.old) buf.now) 0 }
    ensures padded { padded.new
        ≡ value_or (λ _. slab_padded buf.now) (decode_slab (length out.old) buf.now) 0 }
{
    match scripthash_slabs::decode_slab_payload_into(buf, out) {
        Ok(slab) => {
            *used = slab.used;
            *len = slab.len;
            *padded = slab.padded;
            0
        }
        Err(refusal) => {
            *used = 0;
            *len = 0;
            *padded = 0;
            u32::from(refusal)
        }
    }
}
