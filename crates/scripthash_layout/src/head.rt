// The head word of a key: where its list stands, in 64 bits. The top two bits are the mode: 0 a number in the word itself
// (the word 0: none), 1 a slab, 2 nothing any more, 3 pages, by the offset of the last.
ghost use Rattle.std.specs.Prelude.{◌≡◌, ◌<◌, ◌^◌};
ghost use Rattle.buffer.specs.LittleEndian.{little_endian};
ghost use Rattle.scripthash_layout.specs.Head.{head_bytes, pack_head, payload_start, slab_word, unpack_head};
ghost use Rattle.scripthash_layout.specs.AnswersHead.{pack_answer, unpack_answer};

use error::Refusal;

// A slab's used counts this much in its word; the offset below it is less.
const SH8_USED_UNIT: u64 = 1 << 40;
// A slab's class counts this much in its word.
const SH8_CLASS_UNIT: u64 = 1 << 56;
// The mode counts this much in the word; an inline number and a last page's offset are less.
const SH8_MODE_UNIT: u64 = 1 << 62;
// A slab's used has 16 bits.
const SH8_USED_RANGE: u64 = 1 << 16;
// A slab's class has 6 bits.
const SH8_CLASS_RANGE: u64 = 1 << 6;
// The most numbers that a head word itself holds.
const SH_INLINE_CAP: u64 = 1;
// Lists stand in a file from this offset on.
pub const SH_PREFIX_PAGE: u64 = 4096;

// What a head word says of its key.
#[derive(Clone, Copy, Debug, PartialEq, Eq)]
pub enum ShHeadValue {
    // No number.
    Empty,
    // The one number of the key; used is 1.
    Inline { entry: u64, used: u8 },
    // A slab of a class at an offset, with used numbers.
    Slab { class: u8, used: u16, off: u64 },
    // Pages, by the offset of the last.
    Extent { last_page: u64 },
}

// The word of a slab whose fields are within their bits.
fn slab_word(class: u8, used: u16, off: u64) -> u64
    requires { (class < 64) × (off < 2 ^ 40) }
    ensures { result ≡ slab_word class used off }
{
    off + u64::from(used) * SH8_USED_UNIT + u64::from(class) * SH8_CLASS_UNIT + SH8_MODE_UNIT
}

// The word that stores a head value.
pub fn pack8(v: ShHeadValue) -> Result<u64, Refusal>
    ensures { pack_answer result ≡ pack_head v }
{
    match v {
        ShHeadValue::Empty => Ok(0),
        ShHeadValue::Inline { entry, used } => {
            if u64::from(used) != SH_INLINE_CAP {
                return Err(Refusal::InlineUsedNotOne);
            }
            if entry >= SH8_MODE_UNIT {
                return Err(Refusal::InlineTooLarge);
            }
            Ok(entry)
        }
        ShHeadValue::Slab { class, used, off } => {
            if off >= SH8_USED_UNIT {
                return Err(Refusal::SlabFieldTooLarge);
            }
            if u64::from(class) >= SH8_CLASS_RANGE {
                return Err(Refusal::SlabFieldTooLarge);
            }
            Ok(slab_word(class, used, off))
        }
        ShHeadValue::Extent { last_page } => {
            if last_page == 0 {
                return Err(Refusal::ExtentOutOfRange);
            }
            if last_page >= SH8_MODE_UNIT {
                return Err(Refusal::ExtentOutOfRange);
            }
            Ok(last_page + 3 * SH8_MODE_UNIT)
        }
    }
}

// What a stored word says. A match on its mode decides: here the numbers of FORMAT become the cases of a head value, and there is no other
// use of them that an enum of modes would name.
#[tactic(auto, unfolding(crate::specs::Head::unpack_head, error::specs::Refusal::refuse_if))]
pub fn unpack8(w: u64) -> Result<ShHeadValue, Refusal>
    ensures { unpack_answer result ≡ unpack_head w }
{
    let mode = w / SH8_MODE_UNIT;
    match mode {
        0 => {
            if w == 0 {
                return Ok(ShHeadValue::Empty);
            }
            Ok(ShHeadValue::Inline { entry: w, used: 1 })
        }
        1 => {
            let off = w % SH8_USED_UNIT;
            let used = w / SH8_USED_UNIT % SH8_USED_RANGE;
            let class = w / SH8_CLASS_UNIT % SH8_CLASS_RANGE;
            if used <= SH_INLINE_CAP {
                return Err(Refusal::SlabUsedTooSmall);
            }
            Ok(ShHeadValue::Slab {
                class: class as u8,
                used: used as u16,
                off,
            })
        }
        2 => Err(Refusal::ModeTwo),
        // 3: a word has 64 bits, so its mode is at most that.
        _ => {
            let last_page = w % SH8_MODE_UNIT;
            if last_page == 0 {
                return Err(Refusal::ExtentPayloadZero);
            }
            Ok(ShHeadValue::Extent { last_page })
        }
    }
}

// The eight bytes that store a head value, into a lent buffer, which stays as it was where packing is refused.
#[tactic(auto, unfolding(crate::specs::Head::head_bytes))]
pub fn pack8_bytes(v: ShHeadValue, out: &mut [u8; 8]) -> Result<u64, Refusal>
    ensures answer { pack_answer result ≡ pack_head v }
    ensures buffer { out.new ≡ head_bytes (pack_head v) out.old }
{
    let word = pack8(v)?;
    *out = buffer::u64_bytes(word);
    Ok(word)
}

// The word that eight bytes hold.
fn word_of(b: [u8; 8]) -> u64
    ensures { result ≡ little_endian b }
{
    buffer::u64_of(b[0], b[1], b[2], b[3], b[4], b[5], b[6], b[7])
}

// What eight stored bytes say.
pub fn unpack8_bytes(buf: &[u8; 8]) -> Result<ShHeadValue, Refusal>
    ensures { unpack_answer result ≡ unpack_head (little_endian buf.now) }
{
    let b = *buf;
    unpack8(word_of(b))
}

// The offset from which on lists stand in a file, whatever the length of the file's own header.
pub fn payload_start(file_header_len: usize) -> u64
    ensures { result ≡ payload_start }
{
    SH_PREFIX_PAGE
}
