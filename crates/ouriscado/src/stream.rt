// Streams of rising numbers.
ghost use Rattle.std.specs.Prelude.{◌≡◌, length};
ghost use Rattle.error.specs.Refusal.{refusal_of, value_or};
ghost use Rattle.scripthash_stream.specs.Stream.{encode_stream, after_encode, padded_in, decode_stream, after_decode};
ghost use Rattle.scripthash_stream.specs.Answers.{stream_read_answer};

use crate::answers::hand_out;
use error::Refusal;
use scripthash_stream::StreamRead;

// Hands out how many bytes a stream takes that was read, and how many of its numbers are padded.
fn put_read(got: Result<StreamRead, Refusal>, taken: &mut usize, padded: &mut usize) -> u32
    ensures number { result ≡ refusal_of (stream_read_answer got) }
    ensures taken { taken.new ≡ value_or (λ x. x.taken) (stream_read_answer got) 0 }
    ensures padded { padded.new ≡ value_or (λ x. x.padded) (stream_read_answer got) 0 }
{
    match got {
        Ok(read) => {
            *taken = read.taken;
            *padded = read.padded;
            0
        }
        Err(refusal) => {
            *taken = 0;
            *padded = 0;
            u32::from(refusal)
        }
    }
}

// Writes the stream of a rising list to the start of out, and tells its length. Refuses 12, 13, 32, 33.
#[unsafe(no_mangle)]
pub extern "C" fn ouriscado_encode_fk_delta_stream_into(
    out: &mut [u8],
    fks: &[u64],
    len: &mut usize,
) -> u32
    ensures number { result ≡ refusal_of (encode_stream (length out.old) fks.now) }
    ensures bytes { out.new
        ≡ after_encode out.old fks.now (encode_stream (length out.old) fks.now) }
    ensures len { len.new ≡ value_or (λ x. x) (encode_stream (length out.old) fks.now) 0 }
{
    hand_out(
        scripthash_stream::encode_fk_delta_stream_into(out, fks),
        0,
        len,
    )
}

// Reads a stream of n numbers at the start of buf into the start of out, and tells how many bytes it takes and how many of the numbers are
// padded: stored in a longer form than the shortest. Refuses 17, 18, 20 to 23, 34.
#[unsafe(no_mangle)]
pub extern "C" fn ouriscado_decode_fk_delta_stream_into(
    buf: &[u8],
    n: usize,
    out: &mut [u64],
    taken: &mut usize,
    padded: &mut usize,
) -> u32
    ensures number { result ≡ refusal_of (decode_stream (length out.old) n buf.now) }
    ensures list { out.new
        ≡ after_decode out.old (decode_stream (length out.old) n buf.now) }
    ensures taken { taken.new ≡ value_or (λ s. s.taken) (decode_stream (length out.old) n buf.now) 0 }
    ensures padded { padded.new
        ≡ value_or (λ _. padded_in n buf.now) (decode_stream (length out.old) n buf.now) 0 }
{
    put_read(
        scripthash_scan::decode_fk_delta_stream_into(buf, n, out),
        taken,
        padded,
    )
}
