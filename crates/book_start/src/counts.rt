// Judging the counts of a start whose blocks are good: they tell no more pages than there are, the freed pages and each desk's are as the
// blocks tell them, no desk is above its ceiling, and the pages to be had cover what the desks lack of their reserves.
ghost use Rattle.std.specs.Prelude.{cond, List, ◌≡◌, ℕ, ◌/◌, ◌≤◌, ltb, length};
ghost use Rattle.scripthash_layout.specs.declared.head.ShHeadValue.TheVariants.{Extent};
ghost use Rattle.book_desks.specs.Desks.{desks, total, lacks};
ghost use Rattle.book_desks.specs.Counts.{held_in, limits_in};
ghost use Rattle.book_desks.specs.Judged.{SmallCounts};
ghost use Rattle.book_keys.specs.Keys.{soundly, content_at, content, body_ground};
ghost use Rattle.book.specs.Answers.{book_of};
ghost use Rattle.book_start.specs.Start.{good, lacks_open, followed, pages_in, judge_desks, counts_verdict};
ghost use Rattle.book_start.specs.Answers.{verdict_of};
ghost use Rattle.book_start.specs.Steps.{KeysToTally, Tallied, SmallHeld, ListToFollow, CountsToJudge};

use crate::judging::Verdict;
use book_desks::{CEILING, DESKS, HELD, RESERVE};
use book_keys::ChainEnd;
use scripthash_layout::{SH_PAGE_BYTES, ShHeadValue};

// Where the free head of pages stands.
const PAGES: usize = 8;

// How many pages a chain has, by its last page; none where it isn't sound.
fn chain_pages(body: &[u8], mark: u64, last: u64) -> u64
    requires { mark ≤ length body.now }
    ensures { result ≡ pages_in (soundly (content_at (body_ground body.now mark) (Extent last))) }
{
    let Ok(ChainEnd { pages, .. }) = book_keys::chain_end(body, mark, last, false) else {
        return 0;
    };
    pages
}

// How many pages the key of a head word holds; none where it isn't sound.
fn key_pages(body: &[u8], mark: u64, word: u64) -> u64
    requires { mark ≤ length body.now }
    ensures { result ≡ pages_in (content (body_ground body.now mark) word) }
{
    let Ok(place) = scripthash_layout::unpack8(word) else {
        return 0;
    };
    match place {
        ShHeadValue::Empty => 0,
        ShHeadValue::Inline { .. } => 0,
        ShHeadValue::Slab { .. } => 0,
        ShHeadValue::Extent { last_page } => chain_pages(body, mark, last_page),
    }
}

// The pages that the keys of each desk hold.
fn tally_pages(body: &[u8], heads: &[u64], mark: u64, desks: &[u8]) -> [u64; 16]
    requires { KeysToTally body.now heads.now mark desks.now }
    ensures { (free counts : List ℕ) → Tallied desks.now
        (book_of body.now heads.now mark free counts) result }
{
    let mut tally: [u64; 16] = [0; 16];
    for key in 0..heads.len() {
        let desk = desks[key] as usize;
        tally[desk] += key_pages(body, mark, heads[key]);
    }
    tally
}

// The length of a free list of pages, by its head.
fn freed_pages(body: &[u8], mark: u64, head: u64) -> u64
    requires { ListToFollow body.now mark head }
    ensures { result ≡ length (followed (mark / 16) body.now head) }
{
    let mut off = head;
    let mut count: u64 = 0;
    // A freed block names the next one, so no range counts the turns.
    while off != 0 {
        off = buffer::get_u64(body, off as usize);
        count += 1;
    }
    count
}

// The pages that the desks hold together.
fn sum_of_held(counts: &[u64; 49]) -> u64
    requires { SmallHeld counts.now }
    ensures { result ≡ total (held_in counts.now) }
{
    let mut sum: u64 = 0;
    for d in 0..DESKS {
        sum += counts[HELD + d];
    }
    sum
}

// Judges each desk's counts by a tally of its keys' pages, desks rising, and then what they lack by the pages to be had.
fn judge_desks(counts: &[u64; 49], tally: [u64; 16], had: u64, lost: u64) -> Verdict
    requires { SmallCounts counts.now }
    ensures { (ds body heads : List ℕ) (mark : ℕ) (free : List ℕ)
        → Tallied ds (book_of body heads mark free counts.now) tally
        → verdict_of result ≡ (judge_desks ds (book_of body heads mark free counts.now) 0 desks
        (cond (ltb had (lacks (limits_in counts.now) (held_in counts.now))) lacks_open (good lost))) }
{
    for d in 0..DESKS {
        let held = counts[HELD + d];
        let ceiling = counts[CEILING + d];
        if held != tally[d] {
            return Verdict::HeldDiffers(d as u64);
        }
        if ceiling < held {
            return Verdict::HeldHigh(d as u64);
        }
        if ceiling < counts[RESERVE + d] {
            return Verdict::ReserveHigh(d as u64);
        }
    }
    if had < book_desks::sum_of_lacks(counts) {
        return Verdict::LacksOpen;
    }
    Verdict::Good(lost)
}

// Judges the counts of a book whose blocks are good and leave so many units to nobody.
pub fn judge_counts(
    body: &[u8],
    heads: &[u64],
    mark: u64,
    free: &[u64; 9],
    counts: &[u64; 49],
    desks: &[u8],
    lost: u64,
) -> Verdict
    requires { CountsToJudge desks.now (book_of body.now heads.now mark free.now counts.now) }
    ensures { verdict_of result ≡ (counts_verdict desks.now
        (book_of body.now heads.now mark free.now counts.now) lost) }
{
    let size = body.len() as u64;
    let freed = counts[0];
    let had = book_desks::to_be_had(size, freed, mark);
    if size / SH_PAGE_BYTES < 1 + (sum_of_held(counts) + had) {
        return Verdict::CountsExceed;
    }
    if freed != freed_pages(body, mark, free[PAGES]) {
        return Verdict::FreedDiffers;
    }
    let tally = tally_pages(body, heads, mark, desks);
    judge_desks(counts, tally, had, lost)
}
