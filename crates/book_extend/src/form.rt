// The form of a number behind a last number.
ghost use Rattle.std.specs.Prelude.{◌≡◌, ◌-◌, ◌^◌, ◌<◌, MatchOption};
ghost use Rattle.compact.specs.Uleb128.{uleb_len};

use compact::uleb128_len;

// A book's numbers are below 2^62.
const NUMBER_RANGE: u64 = 1 << 62;

// The bytes of a number's form behind a last number; none where it isn't above that one, or isn't below 2^62.
pub fn form_behind(n: u64, fk: u64) -> Option<usize>
    ensures { MatchOption result (fk < n → n < 2 ^ 62 → ⊥)
        (λ len. (fk < n) × (n < 2 ^ 62) × (len ≡ uleb_len (n - fk))) }
{
    if n <= fk {
        return None;
    }
    if NUMBER_RANGE <= n {
        return None;
    }
    Some(uleb128_len(n - fk))
}
