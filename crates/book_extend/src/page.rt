// Numbers behind the stream of a key's last page, as many as it takes.
// Sizes and numbers of 64 bits are cast with `as`, since Rust has no From between them: each cast is proved to fit.
ghost use Rattle.std.specs.Prelude.{◌+◌, ◌-◌, ◌^◌, ◌≤◌, ◌<◌, MatchOption};
ghost use Rattle.compact.specs.Uleb128.{uleb_len};
ghost use Rattle.scripthash_layout.specs.Sizes.{page_size};
ghost use Rattle.scripthash_layout.specs.declared.head.ShHeadValue.TheVariants.{Extent};
ghost use Rattle.book_extend.specs.Steps.{PageTakes, ToExtend, Reaches};

use crate::form::form_behind;
use book_keys::TailEnd;
use error::Refusal;
use scripthash_fields::SH_PAGE_EXTENT_HEADER_LEN;
use scripthash_layout::{SH_PAGE_SIZE, ShHeadValue};

// The bytes of a number's form behind the last number of a page whose stream takes some bytes; none where the page doesn't take the number.
fn form_in_page(n: u64, fk: u64, taken: usize) -> Option<usize>
    requires { 24 + taken ≤ page_size }
    ensures { MatchOption result (fk < n → n < 2 ^ 62 → page_size < 24 + taken + uleb_len (n - fk))
        (λ len. PageTakes n fk taken len) }
{
    let len = form_behind(n, fk)?;
    if SH_PAGE_SIZE < SH_PAGE_EXTENT_HEADER_LEN + taken + len {
        return None;
    }
    Some(len)
}

// Puts the numbers of a list from an index on behind the stream of a key's last page, as many as it takes. The page is scanned once.
// It isn't one function with `extend_slab` over a trait: what a turn writes differs in kind, and the trait's methods and laws would be
// longer than both loops.
pub fn extend_page(
    body: &mut [u8],
    heads: &mut [u64],
    mark: u64,
    key: usize,
    last: u64,
    fks: &[u64],
    from: usize,
) -> Result<usize, Refusal>
    requires { ToExtend body.old heads.old mark key fks.now from (Extent last) }
    ensures { Reaches body.old heads.old mark key fks.now from
        body.new heads.new result }
{
    let TailEnd {
        taken,
        fk,
        creates,
        ..
    } = book_keys::tail_end(body, mark, last)?;
    let mut at = taken;
    let mut prev = fk;
    let mut total = creates;
    for i in from..fks.len() {
        let n = fks[i];
        let Some(len) = form_in_page(n, prev, at) else {
            return Ok(i);
        };
        book_blocks::grow_page(body, last as usize, at, n - prev, total);
        book::put_head(heads, key, ShHeadValue::Extent { last_page: last });
        at += len;
        prev = n;
        total = book_blocks::total_with(total);
    }
    Ok(fks.len())
}
