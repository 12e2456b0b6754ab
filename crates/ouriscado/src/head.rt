// Head words. A head value crosses the boundary as four numbers: its kind (0 none, 1 an inline number, 2 a slab, 3 pages), class, used, and
// place, which is the number itself, the slab's offset or the last page's; what a kind doesn't have is 0.
ghost use Rattle.std.specs.Prelude.{◌≡◌};
ghost use Rattle.error.specs.Refusal.{refusal_of, value_or};
ghost use Rattle.buffer.specs.LittleEndian.{little_endian};
ghost use Rattle.scripthash_layout.specs.Head.{head_bytes, pack_head, unpack_head};
ghost use Rattle.scripthash_layout.specs.AnswersHead.{unpack_answer};
ghost use Rattle.ouriscado.specs.OutHead.{kind_out, class_out, used_out, place_out};

use crate::answers::{hand_out, number};
use error::Refusal;
use scripthash_layout::ShHeadValue;

// The word of no number.
#[unsafe(no_mangle)]
pub extern "C" fn ouriscado_pack8_empty(word: &mut u64) -> u32
    ensures number { result ≡ refusal_of (pack_head ShHeadValue.Empty) }
    ensures word { word.new ≡ value_or (λ x. x) (pack_head ShHeadValue.Empty) 0 }
{
    hand_out(scripthash_layout::pack8(ShHeadValue::Empty), 0, word)
}

// The word of an inline number. Refuses 24, 25.
#[unsafe(no_mangle)]
pub extern "C" fn ouriscado_pack8_inline(entry: u64, used: u8, word: &mut u64) -> u32
    ensures number { result ≡ refusal_of (pack_head (ShHeadValue.Inline entry used)) }
    ensures word { word.new ≡ value_or (λ x. x) (pack_head (ShHeadValue.Inline entry used)) 0 }
{
    hand_out(
        scripthash_layout::pack8(ShHeadValue::Inline { entry, used }),
        0,
        word,
    )
}

// The word of a slab. Refuses 26.
#[unsafe(no_mangle)]
pub extern "C" fn ouriscado_pack8_slab(class: u8, used: u16, off: u64, word: &mut u64) -> u32
    ensures number { result ≡ refusal_of (pack_head (ShHeadValue.Slab class used off)) }
    ensures word { word.new ≡ value_or (λ x. x) (pack_head (ShHeadValue.Slab class used off)) 0 }
{
    hand_out(
        scripthash_layout::pack8(ShHeadValue::Slab { class, used, off }),
        0,
        word,
    )
}

// The word of pages, by the offset of the last. Refuses 27.
#[unsafe(no_mangle)]
pub extern "C" fn ouriscado_pack8_extent(last: u64, word: &mut u64) -> u32
    ensures number { result ≡ refusal_of (pack_head (ShHeadValue.Extent last)) }
    ensures word { word.new ≡ value_or (λ x. x) (pack_head (ShHeadValue.Extent last)) 0 }
{
    hand_out(
        scripthash_layout::pack8(ShHeadValue::Extent { last_page: last }),
        0,
        word,
    )
}

// The eight bytes that store the head of no number.
#[unsafe(no_mangle)]
pub extern "C" fn ouriscado_pack8_bytes_empty(out: &mut [u8; 8]) -> u32
    ensures number { result ≡ refusal_of (pack_head ShHeadValue.Empty) }
    ensures bytes { out.new ≡ head_bytes (pack_head ShHeadValue.Empty) out.old }
{
    number(scripthash_layout::pack8_bytes(ShHeadValue::Empty, out))
}

// The eight bytes that store an inline number. Refuses 24, 25.
#[unsafe(no_mangle)]
pub extern "C" fn ouriscado_pack8_bytes_inline(entry: u64, used: u8, out: &mut [u8; 8]) -> u32
    ensures number { result ≡ refusal_of (pack_head (ShHeadValue.Inline entry used)) }
    ensures bytes { out.new ≡ head_bytes (pack_head (ShHeadValue.Inline entry used)) out.old }
{
    number(scripthash_layout::pack8_bytes(ShHeadValue::Inline { entry, used }, out))
}

// The eight bytes that store a slab's head. Refuses 26.
#[unsafe(no_mangle)]
pub extern "C" fn ouriscado_pack8_bytes_slab(
    class: u8,
    used: u16,
    off: u64,
    out: &mut [u8; 8],
) -> u32
    ensures number { result ≡ refusal_of (pack_head (ShHeadValue.Slab class used off)) }
    ensures bytes { out.new ≡ head_bytes (pack_head (ShHeadValue.Slab class used off)) out.old }
{
    number(scripthash_layout::pack8_bytes(ShHeadValue::Slab { class, used, off }, out))
}

// The eight bytes that store the head of pages, by the offset of the last. Refuses 27.
#[unsafe(no_mangle)]
pub extern "C" fn ouriscado_pack8_bytes_extent(last: u64, out: &mut [u8; 8]) -> u32
    ensures number { result ≡ refusal_of (pack_head (ShHeadValue.Extent last)) }
    ensures bytes { out.new ≡ head_bytes (pack_head (ShHeadValue.Extent last)) out.old }
{
    number(scripthash_layout::pack8_bytes(ShHeadValue::Extent { last_page: last }, out))
}

// The kind of a head value, as its number.
fn kind_of(v: ShHeadValue) -> u8
    ensures { result ≡ kind_out v }
{
    match v {
        ShHeadValue::Empty => 0,
        ShHeadValue::Inline { .. } => 1,
        ShHeadValue::Slab { .. } => 2,
        ShHeadValue::Extent { .. } => 3,
    }
}

// The class of a head value.
fn class_of(v: ShHeadValue) -> u8
    ensures { result ≡ class_out v }
{
    match v {
        ShHeadValue::Empty => 0,
        ShHeadValue::Inline { .. } => 0,
        ShHeadValue::Slab { class, .. } => class,
        ShHeadValue::Extent { .. } => 0,
    }
}

// How many numbers a head value tells of.
fn used_of(v: ShHeadValue) -> u16
    ensures { result ≡ used_out v }
{
    match v {
        ShHeadValue::Empty => 0,
        ShHeadValue::Inline { used, .. } => u16::from(used),
        ShHeadValue::Slab { used, .. } => used,
        ShHeadValue::Extent { .. } => 0,
    }
}

// The place of a head value.
fn place_of(v: ShHeadValue) -> u64
    ensures { result ≡ place_out v }
{
    match v {
        ShHeadValue::Empty => 0,
        ShHeadValue::Inline { entry, .. } => entry,
        ShHeadValue::Slab { off, .. } => off,
        ShHeadValue::Extent { last_page } => last_page,
    }
}

// Hands out a head value, or zeros where it is refused. Laid into its callers, so that no value goes through memory.
#[inline(always)]
pub fn put_head(
    got: Result<ShHeadValue, Refusal>,
    kind: &mut u8,
    class: &mut u8,
    used: &mut u16,
    place: &mut u64,
) -> u32
    ensures number { result ≡ refusal_of (unpack_answer got) }
    ensures kind { kind.new ≡ value_or kind_out (unpack_answer got) 0 }
    ensures class { class.new ≡ value_or class_out (unpack_answer got) 0 }
    ensures used { used.new ≡ value_or used_out (unpack_answer got) 0 }
    ensures place { place.new ≡ value_or place_out (unpack_answer got) 0 }
{
    match got {
        Err(refusal) => {
            *kind = 0;
            *class = 0;
            *used = 0;
            *place = 0;
            u32::from(refusal)
        }
        Ok(v) => {
            *kind = kind_of(v);
            *class = class_of(v);
            *used = used_of(v);
            *place = place_of(v);
            0
        }
    }
}

// What a stored word says, as four numbers. Refuses 28 to 30.
#[unsafe(no_mangle)]
pub extern "C" fn ouriscado_unpack8(
    w: u64,
    kind: &mut u8,
    class: &mut u8,
    used: &mut u16,
    place: &mut u64,
) -> u32
    ensures number { result ≡ refusal_of (unpack_head w) }
    ensures kind { kind.new ≡ value_or kind_out (unpack_head w) 0 }
    ensures class { class.new ≡ value_or class_out (unpack_head w) 0 }
    ensures used { used.new ≡ value_or used_out (unpack_head w) 0 }
    ensures place { place.new ≡ value_or place_out (unpack_head w) 0 }
{
    put_head(scripthash_layout::unpack8(w), kind, class, used, place)
}

// What eight stored bytes say, as four numbers. Refuses 28 to 30.
#[unsafe(no_mangle)]
pub extern "C" fn ouriscado_unpack8_bytes(
    buf: &[u8; 8],
    kind: &mut u8,
    class: &mut u8,
    used: &mut u16,
    place: &mut u64,
) -> u32
    ensures number { result ≡ refusal_of (unpack_head (little_endian buf.now)) }
    ensures kind { kind.new ≡ value_or kind_out (unpack_head (little_endian buf.now)) 0 }
    ensures class { class.new ≡ value_or class_out (unpack_head (little_endian buf.now)) 0 }
    ensures used { used.new ≡ value_or used_out (unpack_head (little_endian buf.now)) 0 }
    ensures place { place.new ≡ value_or place_out (unpack_head (little_endian buf.now)) 0 }
{
    put_head(
        scripthash_layout::unpack8_bytes(buf),
        kind,
        class,
        used,
        place,
    )
}
