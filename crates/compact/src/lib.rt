// Unsigned LEB128, the part of the source's compact.rs that the posting lists use.
#![tactic(auto)]

ghost use Rattle.std.specs.Prelude.{not, ◌&&◌, ltb, eqb, ◌≡◌, ◌≤◌, ◌<◌, length};
ghost use Rattle.error.specs.Refusal.{answered};
ghost use Rattle.buffer.specs.Bytes.{overwrite};
ghost use Rattle.compact.specs.Uleb128.{piece, passes, read_uleb, number_read, uleb_len, shortest, write_uleb, after_write};
ghost use Rattle.compact.specs.Answers.{read_uleb_answer, write_uleb_answer};

use error::Refusal;

// A number that was read: its value, the length of its form and whether that is the shortest.
#[derive(Clone, Copy, Debug, PartialEq, Eq)]
pub struct NumberRead {
    pub value: u64,
    pub len: usize,
    pub shortest: bool,
}

// The length of n's shortest form: 9 / 64 of a byte less for each leading zero comes out like 1 / 7 less, rounded.
pub fn uleb128_len(n: u64) -> usize
    ensures { result ≡ uleb_len n }
{
    let zeros = n.leading_zeros();
    ((640 - 9 * zeros) / 64) as usize
}

// The seven bits of the number that a byte carries.
fn piece_of(b: u8) -> u64
    ensures { result ≡ piece b }
{
    u64::from(b % 128)
}

// The byte at index i of a form passes 64 bits: it is the tenth with a piece above 1, or a later one.
fn passes_64_bits(i: usize, b: u8) -> bool
    ensures { result ≡ passes i b }
{
    i > 9 || i == 9 && b % 128 > 1
}

// Whether a form of a length whose last byte is b is the shortest of its value: it has one byte, or the last isn't 0.
fn ends_shortest(len: usize, b: u8) -> bool
    ensures { result ≡ not (ltb 1 len && eqb b 0) }
{
    len <= 1 || b != 0
}

// The number at the start of buf, whose form may be padded; what follows the form doesn't matter. Laid into its callers: what an export hands
// out doesn't go through memory.
#[inline(always)]
pub fn read_form(buf: &[u8]) -> Result<NumberRead, Refusal>
    ensures { read_uleb_answer result ≡ answered number_read (read_uleb buf.now) }
{
    let mut value: u64 = 0;
    for i in 0..10 {
        if buf.len() <= i {
            return Err(Refusal::UlebCutShort);
        }
        let b = buf[i];
        if passes_64_bits(i, b) {
            return Err(Refusal::UlebOverflow);
        }
        value += piece_of(b) << (7 * i);
        if b < 128 {
            let len = i + 1;
            return Ok(NumberRead {
                value,
                len,
                shortest: ends_shortest(len, b),
            });
        }
    }
    if buf.len() == 10 {
        return Err(Refusal::UlebCutShort);
    }
    Err(Refusal::UlebOverflow)
}

// The same as a function of its own, for loops that read forms.
#[inline(never)]
pub fn read_uleb128(buf: &[u8]) -> Result<NumberRead, Refusal>
    ensures { read_uleb_answer result ≡ answered number_read (read_uleb buf.now) }
{
    read_form(buf)
}

// Writes n's shortest form to the start of dst, where it has room, and tells its length.
pub fn put_uleb128(dst: &mut [u8], n: u64) -> usize
    requires { uleb_len n ≤ length dst.old }
    ensures len { result ≡ uleb_len n }
    ensures bytes { dst.new ≡ overwrite dst.old 0 (shortest n) }
{
    let mut rest = n;
    let mut i: usize = 0;
    // The number decides how many turns there are, and the byte behind the loop needs the index.
    while rest >= 128 {
        dst[i] = (rest % 128) as u8 + 128;
        rest /= 128;
        i += 1;
    }
    dst[i] = rest as u8;
    i + 1
}

// The same in at most ten turns, which the compiler lays out one after the other.
fn put_unrolled(dst: &mut [u8], n: u64) -> usize
    requires { uleb_len n ≤ length dst.old }
    ensures len { result ≡ uleb_len n }
    ensures bytes { dst.new ≡ overwrite dst.old 0 (shortest n) }
{
    let mut rest = n;
    for i in 0..9 {
        if rest < 128 {
            dst[i] = rest as u8;
            return i + 1;
        }
        dst[i] = (rest % 128) as u8 + 128;
        rest /= 128;
    }
    dst[9] = rest as u8;
    10
}

// Writes n's shortest form to a dst of one byte or none, or leaves it where the form doesn't fit.
fn write_byte(dst: &mut [u8], n: u64) -> Result<usize, Refusal>
    requires { length dst.old < 2 }
    ensures answer { write_uleb_answer result ≡ write_uleb (length dst.old) n }
    ensures bytes { dst.new ≡ after_write dst.old n }
{
    if dst.is_empty() || 128 <= n {
        return Err(Refusal::DoesNotFit);
    }
    dst[0] = n as u8;
    Ok(1)
}

// The same to any dst for a form of one byte or of two.
fn write_two(dst: &mut [u8], n: u64) -> Result<usize, Refusal>
    requires { n < 16384 }
    ensures answer { write_uleb_answer result ≡ write_uleb (length dst.old) n }
    ensures bytes { dst.new ≡ after_write dst.old n }
{
    if dst.len() < 2 {
        return write_byte(dst, n);
    }
    if n < 128 {
        dst[0] = n as u8;
        return Ok(1);
    }
    dst[0] = (n % 128) as u8 + 128;
    dst[1] = (n / 128) as u8;
    Ok(2)
}

// The same for a form of three bytes.
fn write_three(dst: &mut [u8], n: u64) -> Result<usize, Refusal>
    requires { (16384 ≤ n) × (n < 2097152) }
    ensures answer { write_uleb_answer result ≡ write_uleb (length dst.old) n }
    ensures bytes { dst.new ≡ after_write dst.old n }
{
    if dst.len() < 3 {
        return Err(Refusal::DoesNotFit);
    }
    dst[0] = (n % 128) as u8 + 128;
    dst[1] = (n / 128 % 128) as u8 + 128;
    dst[2] = (n / 16384) as u8;
    Ok(3)
}

// Writes n's shortest form to the start of dst and leaves the rest, or leaves all of dst where the form doesn't fit. The length is found
// for forms of four bytes and more alone.
pub fn write_uleb128_into(dst: &mut [u8], n: u64) -> Result<usize, Refusal>
    ensures answer { write_uleb_answer result ≡ write_uleb (length dst.old) n }
    ensures bytes { dst.new ≡ after_write dst.old n }
{
    if n < 16384 {
        return write_two(dst, n);
    }
    if n < 2097152 {
        return write_three(dst, n);
    }
    if dst.len() < uleb128_len(n) {
        return Err(Refusal::DoesNotFit);
    }
    Ok(put_unrolled(dst, n))
}
