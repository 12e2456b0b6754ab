// ULEB128 forms.
ghost use Rattle.std.specs.Prelude.{false, not, ◌≡◌, length};
ghost use Rattle.error.specs.Refusal.{refusal_of, value_or};
ghost use Rattle.compact.specs.Uleb128.{read_uleb, padded, uleb_len, write_uleb, after_write};

use crate::answers::hand_out;

// The length of the shortest form of n, in bytes.
#[unsafe(no_mangle)]
pub extern "C" fn ouriscado_uleb128_len(n: u64) -> usize
    ensures { result ≡ uleb_len n }
{
    compact::uleb128_len(n)
}

// Reads the number at the start of buf: its value, the length of its form, and whether that is the shortest form of the value. Refuses 17,
// 18.
#[unsafe(no_mangle)]
pub extern "C" fn ouriscado_read_uleb128(
    buf: &[u8],
    value: &mut u64,
    len: &mut usize,
    shortest: &mut bool,
) -> u32
    ensures number { result ≡ refusal_of (read_uleb buf.now) }
    ensures value { value.new ≡ value_or (λ x. x.value) (read_uleb buf.now) 0 }
    ensures len { len.new ≡ value_or (λ x. x.len) (read_uleb buf.now) 0 }
    ensures shortest { shortest.new ≡ value_or (λ x. not (padded x)) (read_uleb buf.now) false }
{
    match compact::read_form(buf) {
        Ok(read) => {
            *value = read.value;
            *len = read.len;
            *shortest = read.shortest;
            0
        }
        Err(refusal) => {
            *value = 0;
            *len = 0;
            *shortest = false;
            u32::from(refusal)
        }
    }
}

// Writes the shortest form of n to the start of dst, and tells its length. Refuses 33.
#[unsafe(no_mangle)]
pub extern "C" fn ouriscado_write_uleb128_into(dst: &mut [u8], n: u64, len: &mut usize) -> u32
    ensures number { result ≡ refusal_of (write_uleb (length dst.old) n) }
    ensures bytes { dst.new ≡ after_write dst.old n }
    ensures len { len.new ≡ value_or (λ x. x) (write_uleb (length dst.old) n) 0 }
{
    hand_out(compact::write_uleb128_into(dst, n), 0, len)
}
