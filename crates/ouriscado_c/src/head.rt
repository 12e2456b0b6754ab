// The functions of crate ouriscado in src/head.rt, for C: each export calls the one of its name, whose comment says what it does.
ghost use Rattle.std.specs.Prelude.{◌≡◌};
ghost use Rattle.error.specs.Refusal.{refusal_of, value_or};
ghost use Rattle.buffer.specs.LittleEndian.{little_endian};
ghost use Rattle.scripthash_layout.specs.Head.{head_bytes, pack_head, unpack_head};
ghost use Rattle.ouriscado.specs.OutHead.{kind_out, class_out, used_out, place_out};

use scripthash_layout::ShHeadValue;

#[unsafe(no_mangle)]
pub extern "C" fn ouriscado_pack8_empty(word: &mut u64) -> u32
    ensures number { result ≡ refusal_of (pack_head ShHeadValue.Empty) }
    ensures word { word.new ≡ value_or (λ x. x) (pack_head ShHeadValue.Empty) 0 }
{
    ouriscado::ouriscado_pack8_empty(word)
}

#[unsafe(no_mangle)]
pub extern "C" fn ouriscado_pack8_inline(entry: u64, used: u8, word: &mut u64) -> u32
    ensures number { result ≡ refusal_of (pack_head (ShHeadValue.Inline entry used)) }
    ensures word { word.new ≡ value_or (λ x. x) (pack_head (ShHeadValue.Inline entry used)) 0 }
{
    ouriscado::ouriscado_pack8_inline(entry, used, word)
}

#[unsafe(no_mangle)]
pub extern "C" fn ouriscado_pack8_slab(class: u8, used: u16, off: u64, word: &mut u64) -> u32
    ensures number { result ≡ refusal_of (pack_head (ShHeadValue.Slab class used off)) }
    ensures word { word.new ≡ value_or (λ x. x) (pack_head (ShHeadValue.Slab class used off)) 0 }
{
    ouriscado::ouriscado_pack8_slab(class, used, off, word)
}

#[unsafe(no_mangle)]
pub extern "C" fn ouriscado_pack8_extent(last: u64, word: &mut u64) -> u32
    ensures number { result ≡ refusal_of (pack_head (ShHeadValue.Extent last)) }
    ensures word { word.new ≡ value_or (λ x. x) (pack_head (ShHeadValue.Extent last)) 0 }
{
    ouriscado::ouriscado_pack8_extent(last, word)
}

#[unsafe(no_mangle)]
pub extern "C" fn ouriscado_pack8_bytes_empty(out: &mut [u8; 8]) -> u32
    ensures number { result ≡ refusal_of (pack_head ShHeadValue.Empty) }
    ensures bytes { out.new ≡ head_bytes (pack_head ShHeadValue.Empty) out.old }
{
    ouriscado::ouriscado_pack8_bytes_empty(out)
}

#[unsafe(no_mangle)]
pub extern "C" fn ouriscado_pack8_bytes_inline(entry: u64, used: u8, out: &mut [u8; 8]) -> u32
    ensures number { result ≡ refusal_of (pack_head (ShHeadValue.Inline entry used)) }
    ensures bytes { out.new ≡ head_bytes (pack_head (ShHeadValue.Inline entry used)) out.old }
{
    ouriscado::ouriscado_pack8_bytes_inline(entry, used, out)
}

#[unsafe(no_mangle)]
pub extern "C" fn ouriscado_pack8_bytes_slab(
    class: u8,
    used: u16,
    off: u64,
    out: &mut [u8; 8],
) -> u32
    ensures number { result ≡ refusal_of (pack_head (ShHeadValue.Slab class used off)) }
    ensures bytes { out.new ≡ head_bytes (pack_head (ShHeadValue.Slab class used off)) out.old }
{
    ouriscado::ouriscado_pack8_bytes_slab(class, used, off, out)
}

#[unsafe(no_mangle)]
pub extern "C" fn ouriscado_pack8_bytes_extent(last: u64, out: &mut [u8; 8]) -> u32
    ensures number { result ≡ refusal_of (pack_head (ShHeadValue.Extent last)) }
    ensures bytes { out.new ≡ head_bytes (pack_head (ShHeadValue.Extent last)) out.old }
{
    ouriscado::ouriscado_pack8_bytes_extent(last, out)
}

#[unsafe(no_mangle)]
pub extern "C" fn ouriscado_unpack8(
    w: u64,
    kind: &mut u8,
    class: &mut u8,
    used: &mut u16,
    place: &mut u64,
) -> u32
    ensures number { result ≡ refusal_of (unpack_head w) }
    ensures kind { kind.new ≡ value_or kind_out (unpack_head w) 0 }
    ensures class { class.new ≡ value_or class_out (unpack_head w) 0 }
    ensures used { used.new ≡ value_or used_out (unpack_head w) 0 }
    ensures place { place.new ≡ value_or place_out (unpack_head w) 0 }
{
    ouriscado::ouriscado_unpack8(w, kind, class, used, place)
}

#[unsafe(no_mangle)]
pub extern "C" fn ouriscado_unpack8_bytes(
    buf: &[u8; 8],
    kind: &mut u8,
    class: &mut u8,
    used: &mut u16,
    place: &mut u64,
) -> u32
    ensures number { result ≡ refusal_of (unpack_head (little_endian buf.now)) }
    ensures kind { kind.new ≡ value_or kind_out (unpack_head (little_endian buf.now)) 0 }
    ensures class { class.new ≡ value_or class_out (unpack_head (little_endian buf.now)) 0 }
    ensures used { used.new ≡ value_or used_out (unpack_head (little_endian buf.now)) 0 }
    ensures place { place.new ≡ value_or place_out (unpack_head (little_endian buf.now)) 0 }
{
    ouriscado::ouriscado_unpack8_bytes(buf, kind, class, used, place)
}
