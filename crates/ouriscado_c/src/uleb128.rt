// The functions of crate ouriscado in src/uleb128.rt, for C: each export calls the one of its name, whose comment says what it does.
ghost use Rattle.std.specs.Prelude.{false, not, ◌≡◌, length};
ghost use Rattle.error.specs.Refusal.{refusal_of, value_or};
ghost use Rattle.compact.specs.Uleb128.{read_uleb, padded, uleb_len, write_uleb, after_write};

#[unsafe(no_mangle)]
pub extern "C" fn ouriscado_uleb128_len(n: u64) -> usize
    ensures { result ≡ uleb_len n }
{
    ouriscado::ouriscado_uleb128_len(n)
}

#[unsafe(no_mangle)]
pub extern "C" fn ouriscado_read_uleb128(
    buf: &[u8],
    value: &mut u64,
    len: &mut usize,
    shortest: &mut bool,
) -> u32
    ensures number { result ≡ refusal_of (read_uleb buf.now) }
    ensures value { value.new ≡ value_or (λ x. x.value) (read_uleb buf.now) 0 }
    ensures len { len.new ≡ value_or (λ x. x.len) (read_uleb buf.now) 0 }
    ensures shortest { shortest.new ≡ value_or (λ x. not (padded x)) (read_uleb buf.now) false }
{
    ouriscado::ouriscado_read_uleb128(buf, value, len, shortest)
}

#[unsafe(no_mangle)]
pub extern "C" fn ouriscado_write_uleb128_into(dst: &mut [u8], n: u64, len: &mut usize) -> u32
    ensures number { result ≡ refusal_of (write_uleb (length dst.old) n) }
    ensures bytes { dst.new ≡ after_write dst.old n }
    ensures len { len.new ≡ value_or (λ x. x) (write_uleb (length dst.old) n) 0 }
{
    ouriscado::ouriscado_write_uleb128_into(dst, n, len)
}
