// The counts of a book in 49 words: the freed pages, then by desk the pages held, the reserves and the ceilings. The words stay in one
// array, read at places that constants name: the format has them so, and C lends them so.
ghost use Rattle.std.specs.Prelude.{◌≡◌, not, ◌&&◌, ◌+◌, ◌≤◌, ◌<◌, ◌^◌, ltb, eqb, get_or};
ghost use Rattle.error.specs.Answers.{refusal_in};
ghost use Rattle.book_desks.specs.Desks.{desks, sum_to, lacks, to_be_had, permission_number};
ghost use Rattle.book_desks.specs.Counts.{held_in, limits_in, reserve_at, counts_high};
ghost use Rattle.book_desks.specs.Judged.{SmallCounts, ToJudge};

use crate::DESKS;
use error::Refusal;
use scripthash_layout::SH_PAGE_BYTES;

// Where the pages held stand, by desk.
pub const HELD: usize = 1;
// Where the reserves stand, by desk.
pub const RESERVE: usize = 17;
// Where the ceilings stand, by desk.
pub const CEILING: usize = 33;

// Tells whether the count of freed pages, a desk's pages, or a reserve is above the pages of a body.
pub fn counts_high(counts: &[u64; 49], size: u64) -> bool
    ensures { result ≡ counts_high size counts.now }
{
    let most = size / SH_PAGE_BYTES;
    counts[..CEILING].iter().any(|count| *count > most)
}

// The reserves together.
fn sum_of_reserves(counts: &[u64; 49]) -> u64
    requires { SmallCounts counts.now }
    ensures { result ≡ sum_to desks (λ d. get_or counts.now (reserve_at d) 0) }
{
    counts[RESERVE..CEILING].iter().sum()
}

// What the desks together still lack of their reserves: nothing, where there are none, as in a book without desks.
pub fn sum_of_lacks(counts: &[u64; 49]) -> u64
    requires { SmallCounts counts.now }
    ensures { result ≡ lacks (limits_in counts.now) (held_in counts.now) }
{
    if sum_of_reserves(counts) == 0 {
        return 0;
    }
    let mut sum: u64 = 0;
    for d in 0..DESKS {
        sum += counts[RESERVE + d].saturating_sub(counts[HELD + d]);
    }
    sum
}

// Tells whether a take of some pages passes a ceiling.
fn past_ceiling(pages: u64, held: u64, ceiling: u64) -> bool
    requires { held + pages < 2 ^ 64 }
    ensures { result ≡ (not (eqb pages 0) && ltb ceiling (held + pages)) }
{
    pages != 0 && ceiling < held + pages
}

// Pages to be had, with so many freed and the mark at an offset.
pub fn to_be_had(size: u64, freed: u64, mark: u64) -> u64
    requires { (freed ≤ 2 ^ 41) × (mark ≤ size) × (size ≤ 2 ^ 41) }
    ensures { result ≡ to_be_had size freed mark }
{
    let from = mark.next_multiple_of(SH_PAGE_BYTES);
    freed + size.saturating_sub(from) / SH_PAGE_BYTES
}

// Judges a desk's take of some pages, 0 for a slab, by the rule of desks: it would leave so many freed pages and this mark.
pub fn permission(
    counts: &[u64; 49],
    size: u64,
    desk: u64,
    pages: u64,
    freed: u64,
    mark: u64,
) -> Result<(), Refusal>
    requires { ToJudge counts.now size desk pages freed mark }
    ensures { refusal_in result ≡ permission_number (limits_in counts.now) size desk pages (held_in counts.now) freed mark }
{
    let d = desk as usize;
    let held = counts[HELD + d];
    if past_ceiling(pages, held, counts[CEILING + d]) {
        return Err(Refusal::PastCeiling);
    }
    let reserve = counts[RESERVE + d];
    let had = to_be_had(size, freed, mark);
    let lacking = sum_of_lacks(counts);
    if had + reserve.saturating_sub(held) < lacking + reserve.saturating_sub(held + pages) {
        return Err(Refusal::IntoReserves);
    }
    Ok(())
}
