// The functions of crate ouriscado in src/stream.rt, for C: each export calls the one of its name, whose comment says what it does.
ghost use Rattle.std.specs.Prelude.{◌≡◌, length};
ghost use Rattle.error.specs.Refusal.{refusal_of, value_or};
ghost use Rattle.scripthash_stream.specs.Stream.{encode_stream, after_encode, padded_in, decode_stream, after_decode};

#[unsafe(no_mangle)]
pub extern "C" fn ouriscado_encode_fk_delta_stream_into(
    out: &mut [u8],
    fks: &[u64],
    len: &mut usize,
) -> u32
    ensures number { result ≡ refusal_of (encode_stream (length out.old) fks.now) }
    ensures bytes { out.new
        ≡ after_encode out.old fks.now (encode_stream (length out.old) fks.now) }
    ensures len { len.new ≡ value_or (λ x. x) (encode_stream (length out.old) fks.now) 0 }
{
    ouriscado::ouriscado_encode_fk_delta_stream_into(out, fks, len)
}

#[unsafe(no_mangle)]
pub extern "C" fn ouriscado_decode_fk_delta_stream_into(
    buf: &[u8],
    n: usize,
    out: &mut [u64],
    taken: &mut usize,
    padded: &mut usize,
) -> u32
    ensures number { result ≡ refusal_of (decode_stream (length out.old) n buf.now) }
    ensures list { out.new
        ≡ after_decode out.old (decode_stream (length out.old) n buf.now) }
    ensures taken { taken.new ≡ value_or (λ s. s.taken) (decode_stream (length out.old) n buf.now) 0 }
    ensures padded { padded.new
        ≡ value_or (λ _. padded_in n buf.now) (decode_stream (length out.old) n buf.now) 0 }
{
    ouriscado::ouriscado_decode_fk_delta_stream_into(buf, n, out, taken, padded)
}
