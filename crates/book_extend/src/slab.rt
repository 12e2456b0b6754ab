// Numbers behind the list of a key's slab, as many as stay there.
// Sizes and numbers of 64 bits are cast with `as`, since Rust has no From between them: each cast is proved to fit.
ghost use Rattle.std.specs.Prelude.{false, ◌≡◌, ◌+◌, ◌-◌, ◌^◌, ◌≤◌, ◌<◌, MatchOption};
ghost use Rattle.compact.specs.Uleb128.{uleb_len};
ghost use Rattle.scripthash_layout.specs.Sizes.{max_slab_class, max_slab_count};
ghost use Rattle.scripthash_layout.specs.declared.head.ShHeadValue.TheVariants.{Slab};
ghost use Rattle.book_rules.specs.Places.{stays};
ghost use Rattle.book_extend.specs.Steps.{SlabTakes, ToExtend, Reaches};

use crate::form::form_behind;
use error::Refusal;
use scripthash_layout::ShHeadValue;
use scripthash_stream::Scanned;

// The bytes of a number's form behind the last number of a slab that has some numbers in some bytes; none where the number doesn't stay
// there.
fn form_in_slab(class: u8, used: u16, n: u64, fk: u64, taken: usize) -> Option<usize>
    requires { (class ≤ max_slab_class) × (used ≤ max_slab_count) × (taken < 2048) }
    ensures { MatchOption result (fk < n → n < 2 ^ 62 → stays class (used + 1) (taken + uleb_len (n - fk)) ≡ false)
        (λ len. SlabTakes class used n fk taken len) }
{
    let len = form_behind(n, fk)?;
    if !book_rules::stays(class, usize::from(used) + 1, taken + len) {
        return None;
    }
    Some(len)
}

// Puts the numbers of a list from an index on behind the list of a key's slab, as many as stay there. The slab is scanned once.
pub fn extend_slab(
    body: &mut [u8],
    heads: &mut [u64],
    mark: u64,
    key: usize,
    class: u8,
    used: u16,
    off: u64,
    fks: &[u64],
    from: usize,
) -> Result<usize, Refusal>
    requires { ToExtend body.old heads.old mark key fks.now from (Slab class used off) }
    ensures { Reaches body.old heads.old mark key fks.now from
        body.new heads.new result }
{
    let Scanned { taken, last } = book_keys::slab_end(body, mark, class, used, off)?;
    let size = scripthash_layout::slab_bytes(class) as usize;
    let mut count = used;
    let mut at = taken;
    let mut prev = last;
    for i in from..fks.len() {
        let n = fks[i];
        let Some(len) = form_in_slab(class, count, n, prev, at) else {
            return Ok(i);
        };
        book_blocks::grow_slab(body, off as usize, size, count, at, n - prev);
        count += 1;
        let place = ShHeadValue::Slab {
            class,
            used: count,
            off,
        };
        book::put_head(heads, key, place);
        at += len;
        prev = n;
    }
    Ok(fks.len())
}
