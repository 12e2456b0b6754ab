// Blocks that a desk takes and gives back: each take is looked at ahead and judged by the counts, so that a refused one writes nothing.
ghost use Rattle.std.specs.Prelude.{cond, not, ◌≡◌, ◌-◌, ◌≤◌, ◌<◌, eqb};
ghost use Rattle.std.proofs.Math.Option.{none, some};
ghost use Rattle.error.specs.Refusal.{answered};
ghost use Rattle.error.specs.Answers.{refusal_in};
ghost use Rattle.scripthash_layout.specs.Sizes.{max_slab_class, page_class, slab_bytes};
ghost use Rattle.book_limits.specs.Limits.{most_body};
ghost use Rattle.book_desks.specs.Desks.{desks};
ghost use Rattle.book_desks.specs.Counts.{counted};
ghost use Rattle.book_space.specs.Space.{space, take_block};
ghost use Rattle.book_space.specs.Desks.{slab_for, page_for, run_found, run_for};
ghost use Rattle.book_space.specs.Answers.{take_answer, peek_answer};
ghost use Rattle.book_space.specs.Steps.{ToTake, mark_after, mark_after_run, mark_after_slab, judged_number, Judgeable, ToTakeFor};
ghost use Rattle.book_space.specs.Steps.{TakesFor};
ghost use Rattle.book_space.specs.Steps.{ToTakeRun, ToTakeFreed, ToGiveBack, GivesBack};

use crate::take::{SLABS_END, pop_end, run_at_mark, take_block};
use book_desks::HELD;
use error::Refusal;
use scripthash_layout::{SH_PAGE_BYTES, SH_PAGE_SLAB_CLASS};

// The free head of pages.
const PAGES: usize = SH_PAGE_SLAB_CLASS as usize;

// Where the mark would stand after a run of pages at it.
fn peek_run(size: u64, mark: u64, pages: u64) -> Result<u64, Refusal>
    requires { (mark ≤ most_body) × (pages ≤ 65535) }
    ensures { peek_answer result ≡ mark_after_run size mark pages }
{
    let from = (mark + (SH_PAGE_BYTES - 1)) / SH_PAGE_BYTES * SH_PAGE_BYTES;
    let end = from + pages * SH_PAGE_BYTES;
    if size < end {
        return Err(Refusal::NoRoom);
    }
    Ok(end)
}

// Where the mark would stand after a slab of a class 0 to 7 at it.
fn peek_slab(size: u64, mark: u64, class: u8) -> Result<u64, Refusal>
    requires { (mark ≤ most_body) × (class ≤ max_slab_class) }
    ensures { peek_answer result ≡ mark_after_slab size mark (slab_bytes class) }
{
    let end = mark + scripthash_layout::slab_bytes(class);
    if SLABS_END < end {
        return Err(Refusal::NoRoom);
    }
    if size < end {
        return Err(Refusal::NoRoom);
    }
    Ok(end)
}

// Where the mark would stand after a block of a class is taken: where it is after a freed one, or else behind a fresh one.
fn peek_block(body: &[u8], mark: u64, free: &[u64; 9], class: u8) -> Result<u64, Refusal>
    requires { ToTake (space body.now mark free.now) class page_class }
    ensures { peek_answer result ≡ answered mark_after (take_block class (space body.now mark free.now)) }
{
    let idx = class as usize;
    let off = free[idx];
    if off == 0 {
        if class == SH_PAGE_SLAB_CLASS {
            return peek_run(body.len() as u64, mark, 1);
        }
        return peek_slab(body.len() as u64, mark, class);
    }
    if scripthash_free::is_block(class, off, pop_end(class, mark)) {
        return Ok(mark);
    }
    Err(Refusal::FreeHeadBad)
}

// Judges a desk's take of some pages, 0 for a slab: by the counts, and then by the rule of desks.
fn judge_take(
    counts: &[u64; 49],
    end: u64,
    desk: u64,
    pages: u64,
    freed: u64,
    mark: u64,
) -> Result<(), Refusal>
    requires { Judgeable counts.now end desk pages freed mark }
    ensures { refusal_in result ≡ judged_number end desk pages freed counts.now mark }
{
    if book_desks::counts_high(counts, end) {
        return Err(Refusal::ShapeBad);
    }
    book_desks::permission(counts, end, desk, pages, freed, mark)
}

// Writes the count of freed pages, and that of a desk's pages.
fn put_counts(counts: &mut [u64; 49], freed: u64, desk: u64, held: u64)
    requires { desk < desks }
    ensures { counts.new ≡ counted freed desk held counts.old }
{
    counts[0] = freed;
    counts[HELD + desk as usize] = held;
}

// Takes a slab of a class for a desk: no count changes.
pub fn slab_for(
    body: &mut [u8],
    mark: &mut u64,
    free: &mut [u64; 9],
    counts: &[u64; 49],
    desk: u64,
    class: u8,
) -> Result<u64, Refusal>
    requires { ToTakeFor (space body.old mark.old free.old) desk class max_slab_class }
    ensures { TakesFor
        (slab_for desk class (space body.old mark.old free.old) counts.now)
        (space body.old mark.old free.old) counts.now
        (space body.new mark.new free.new) counts.now (take_answer result) }
{
    let low = *mark;
    let end = peek_block(body, low, free, class)?;
    judge_take(counts, body.len() as u64, desk, 0, counts[0], end)?;
    take_block(body, mark, free, class)
}

// Tells whether just one of the free head of pages and the count of freed pages is 0.
fn freed_untrue(head: u64, freed: u64) -> bool
    ensures { result ≡ cond (eqb head 0) (not (eqb freed 0)) (eqb freed 0) }
{
    if head == 0 {
        return freed != 0;
    }
    freed == 0
}

// The freed pages once a page is taken: one less where there is a freed one.
fn freed_left(head: u64, freed: u64) -> u64
    ensures { result ≡ cond (eqb head 0) freed (freed - 1) }
{
    if head == 0 {
        return freed;
    }
    if freed == 0 {
        return 0;
    }
    freed - 1
}

// Takes a page for a desk, as an append does, and counts it.
pub fn page_for(
    body: &mut [u8],
    mark: &mut u64,
    free: &mut [u64; 9],
    counts: &mut [u64; 49],
    desk: u64,
) -> Result<u64, Refusal>
    requires { ToTakeFor (space body.old mark.old free.old) desk page_class page_class }
    ensures { TakesFor
        (page_for desk (space body.old mark.old free.old) counts.old)
        (space body.old mark.old free.old) counts.old
        (space body.new mark.new free.new) counts.new (take_answer result) }
{
    let head = free[PAGES];
    let freed = counts[0];
    if freed_untrue(head, freed) {
        return Err(Refusal::FreeHeadBad);
    }
    let low = *mark;
    let end = peek_block(body, low, free, SH_PAGE_SLAB_CLASS)?;
    let left = freed_left(head, freed);
    judge_take(counts, body.len() as u64, desk, 1, left, end)?;
    let held = counts[HELD + desk as usize];
    put_counts(counts, left, desk, held + 1);
    take_block(body, mark, free, SH_PAGE_SLAB_CLASS)
}

// Takes a run of pages at the mark for a desk, and counts them.
fn run_at_mark_for(
    body: &mut [u8],
    mark: &mut u64,
    free: &mut [u64; 9],
    counts: &mut [u64; 49],
    desk: u64,
    pages: u64,
) -> Result<u64, Refusal>
    requires { ToTakeFor (space body.old mark.old free.old) desk pages 65535 }
    ensures { TakesFor
        (run_found desk pages (space body.old mark.old free.old) counts.old none)
        (space body.old mark.old free.old) counts.old
        (space body.new mark.new free.new) counts.new (take_answer result) }
{
    let low = *mark;
    let end = peek_run(body.len() as u64, low, pages)?;
    let freed = counts[0];
    judge_take(counts, body.len() as u64, desk, pages, freed, end)?;
    let held = counts[HELD + desk as usize];
    put_counts(counts, freed, desk, held + pages);
    run_at_mark(body, mark, free, pages)
}

// Takes a run of pages for a desk out of the freed ones, where a search of them found it, and counts them: the mark stays.
fn run_freed_for(
    body: &mut [u8],
    mark: u64,
    free: &mut [u64; 9],
    counts: &mut [u64; 49],
    desk: u64,
    pages: u64,
    off: u64,
) -> Result<u64, Refusal>
    requires { ToTakeFreed (space body.old mark free.old) counts.old desk pages off }
    ensures { TakesFor
        (run_found desk pages (space body.old mark free.old) counts.old (some off))
        (space body.old mark free.old) counts.old
        (space body.new mark free.new) counts.new (take_answer result) }
{
    let freed = counts[0];
    let left = freed - pages;
    judge_take(counts, body.len() as u64, desk, pages, left, mark)?;
    let held = counts[HELD + desk as usize];
    put_counts(counts, left, desk, held + pages);
    let head = free[PAGES];
    let top = free_runs::unlink(body, mark, head, freed, off, off + pages * SH_PAGE_BYTES);
    free[PAGES] = top;
    Ok(off)
}

// Takes a run of pages for a desk, as a load does, and counts them: the lowest stretch of freed pages, or else a run at the mark.
pub fn run_for(
    body: &mut [u8],
    mark: &mut u64,
    free: &mut [u64; 9],
    counts: &mut [u64; 49],
    desk: u64,
    pages: u64,
) -> Result<u64, Refusal>
    requires { ToTakeRun (space body.old mark.old free.old) desk pages }
    ensures { TakesFor
        (run_for desk pages (space body.old mark.old free.old) counts.old)
        (space body.old mark.old free.old) counts.old
        (space body.new mark.new free.new) counts.new (take_answer result) }
{
    let low = *mark;
    let head = free[PAGES];
    match free_runs::seek_run(body, low, head, counts[0], pages)? {
        Some(off) => run_freed_for(body, low, free, counts, desk, pages, off),
        None => run_at_mark_for(body, mark, free, counts, desk, pages),
    }
}

// Gives back some pages of a desk, by the counts alone: refused where the counts are above the pages of a body, and where the desk holds
// fewer.
pub fn give_back(counts: &mut [u64; 49], size: u64, desk: u64, pages: u64) -> Result<(), Refusal>
    requires { ToGiveBack desk pages }
    ensures { GivesBack size desk pages counts.old counts.new (refusal_in result) }
{
    if book_desks::counts_high(counts, size) {
        return Err(Refusal::ShapeBad);
    }
    let held = counts[HELD + desk as usize];
    if held < pages {
        return Err(Refusal::KeyUnsound);
    }
    let freed = counts[0];
    put_counts(counts, freed + pages, desk, held - pages);
    Ok(())
}
