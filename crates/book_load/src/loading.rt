// Loading a list onto an empty key, for a desk.
// Sizes and numbers of 64 bits are cast with `as`, since Rust has no From between them: each cast is proved to fit.
ghost use Rattle.std.specs.Prelude.{List, ◌≡◌, ℕ, ◌<◌, length};
ghost use Rattle.std.proofs.Math.Option.{none, some};
ghost use Rattle.error.specs.Refusal.{accepted};
ghost use Rattle.scripthash_stream.specs.Stream.{stream_len};
ghost use Rattle.book_rules.specs.Outcomes.{book_after, answer_of};
ghost use Rattle.book_rules.specs.Places.{loads_to};
ghost use Rattle.book_space.specs.Space.{Space};
ghost use Rattle.book.specs.Book.{Book};
ghost use Rattle.book_load.specs.Loads.{loading, load_into, load_at, loads};
ghost use Rattle.book.specs.Answers.{book_of};
ghost use Rattle.book_load.specs.Answers.{load_answer};
ghost use Rattle.book.specs.Steps.{Does};
ghost use Rattle.book_load.specs.Steps.{ToLoadJudged, ToLoadList, ToLoadSlab, ToLoadRun, ToLoadParts};

use book::{place_in_slab, put_head};
use book_desks::DESKS;
use book_rules::SlabFit;
use error::Refusal;
use scripthash_cutting::ChunkRange;
use scripthash_layout::{SH_PAGE_SIZE, ShHeadValue};
use scripthash_slabs::SH_MEGAKEY_MIN_FKS;
use scripthash_stream::MAX_OFFERED;

// The most pages of a load's run: one for each 407 numbers, and two.
const MOST_PAGES: usize = 163;

// An accepted load gives the key its place, whatever the space and the counts are then.
fn accept_load(
    heads: &mut [u64],
    key: usize,
    place: ShHeadValue,
    pages: u64,
) -> Result<u64, Refusal>
    requires { key < length heads.old }
    ensures { (b : Book) (s : Space) (counts : List ℕ) → b.heads ≡ heads.old
        → Does (accepted (loading key place pages s counts b)) b
        (record { heads = heads.new; space = s; counts = counts }) (load_answer result) }
{
    put_head(heads, key, place);
    Ok(pages)
}

// Loads a list into a slab of a class that a desk takes: no count changes.
fn load_slab(
    body: &mut [u8],
    heads: &mut [u64],
    mark: &mut u64,
    free: &mut [u64; 9],
    counts: &[u64; 49],
    desk: u64,
    key: usize,
    fks: &[u64],
    class: u8,
) -> Result<u64, Refusal>
    requires { ToLoadSlab desk (book_of body.old heads.old mark.old free.old counts.now) key fks.now class }
    ensures { Does
        (load_into desk (book_of body.old heads.old mark.old free.old counts.now) key
        fks.now (some class))
        (book_of body.old heads.old mark.old free.old counts.now)
        (book_of body.new heads.new mark.new free.new counts.now) (load_answer result) }
{
    let place = place_in_slab(body, mark, free, counts, desk, fks, class)?;
    accept_load(heads, key, place, 0)
}

// Loads a list into a run of pages that a desk takes, by the ranges of its parts, a part in each.
fn load_parts(
    body: &mut [u8],
    heads: &mut [u64],
    mark: &mut u64,
    free: &mut [u64; 9],
    counts: &mut [u64; 49],
    desk: u64,
    key: usize,
    fks: &[u64],
    ranges: &[ChunkRange],
    count: usize,
) -> Result<u64, Refusal>
    requires { ToLoadParts desk (book_of body.old heads.old mark.old free.old counts.old) key fks.now ranges.now count }
    ensures { Does
        (load_into desk (book_of body.old heads.old mark.old free.old counts.old) key
        fks.now none)
        (book_of body.old heads.old mark.old free.old counts.old)
        (book_of body.new heads.new mark.new free.new counts.new) (load_answer result) }
{
    let off = book_space::run_for(body, mark, free, counts, desk, count as u64)?;
    book_blocks::put_run(body, off as usize, fks, ranges, count);
    let last_page = off + ((count - 1) * SH_PAGE_SIZE) as u64;
    accept_load(heads, key, ShHeadValue::Extent { last_page }, count as u64)
}

// Loads a list into a run of pages, a part of its cutting in each.
fn load_run(
    body: &mut [u8],
    heads: &mut [u64],
    mark: &mut u64,
    free: &mut [u64; 9],
    counts: &mut [u64; 49],
    desk: u64,
    key: usize,
    fks: &[u64],
) -> Result<u64, Refusal>
    requires { ToLoadRun desk (book_of body.old heads.old mark.old free.old counts.old) key fks.now }
    ensures { Does
        (load_into desk (book_of body.old heads.old mark.old free.old counts.old) key
        fks.now none)
        (book_of body.old heads.old mark.old free.old counts.old)
        (book_of body.new heads.new mark.new free.new counts.new) (load_answer result) }
{
    let mut ranges = [[0; 2]; MOST_PAGES];
    let count = scripthash_cutting::sh_page_chunk_ranges(fks, &mut ranges)?;
    load_parts(
        body, heads, mark, free, counts, desk, key, fks, &ranges, count,
    )
}

// Loads a list of two or more numbers that was judged, and whose stream takes so many bytes.
fn load_list(
    body: &mut [u8],
    heads: &mut [u64],
    mark: &mut u64,
    free: &mut [u64; 9],
    counts: &mut [u64; 49],
    desk: u64,
    fit: SlabFit,
    key: usize,
    fks: &[u64],
    bytes: usize,
) -> Result<u64, Refusal>
    requires { ToLoadList desk (book_of body.old heads.old mark.old free.old counts.old) key fks.now bytes }
    ensures { Does
        (load_into desk (book_of body.old heads.old mark.old free.old counts.old) key
        fks.now (loads_to fit (length fks.now) (stream_len fks.now)))
        (book_of body.old heads.old mark.old free.old counts.old)
        (book_of body.new heads.new mark.new free.new counts.new) (load_answer result) }
{
    match book_rules::loads_to(fit, fks.len(), bytes) {
        Some(class) => load_slab(body, heads, mark, free, counts, desk, key, fks, class),
        None => load_run(body, heads, mark, free, counts, desk, key, fks),
    }
}

// Loads a list that was judged onto an empty key: none changes nothing, one number goes into the head word, and more than a slab is given
// go into pages. So `load_run` is called from two places, and the compiler leaves it a function: a load into a slab doesn't set up its
// frame, of which the search for freed pages has 32 KB.
fn load_judged(
    body: &mut [u8],
    heads: &mut [u64],
    mark: &mut u64,
    free: &mut [u64; 9],
    counts: &mut [u64; 49],
    desk: u64,
    fit: SlabFit,
    key: usize,
    fks: &[u64],
    bytes: usize,
) -> Result<u64, Refusal>
    requires { ToLoadJudged desk (book_of body.old heads.old mark.old free.old counts.old) key fks.now bytes }
    ensures { Does
        (load_at fit desk (book_of body.old heads.old mark.old free.old counts.old) key
        fks.now)
        (book_of body.old heads.old mark.old free.old counts.old)
        (book_of body.new heads.new mark.new free.new counts.new) (load_answer result) }
{
    if fks.is_empty() {
        return Ok(0);
    }
    if fks.len() == 1 {
        let entry = fks[0];
        return accept_load(heads, key, ShHeadValue::Inline { entry, used: 1 }, 0);
    }
    if SH_MEGAKEY_MIN_FKS as usize <= fks.len() {
        return load_run(body, heads, mark, free, counts, desk, key, fks);
    }
    load_list(body, heads, mark, free, counts, desk, fit, key, fks, bytes)
}

// Loads a list onto an empty key, for a desk: its slab has a spare slot, or fits tight.
pub fn load(
    body: &mut [u8],
    heads: &mut [u64],
    mark: &mut u64,
    free: &mut [u64; 9],
    counts: &mut [u64; 49],
    desk: u64,
    fit: SlabFit,
    key: u64,
    fks: &[u64],
) -> Result<u64, Refusal>
    ensures answer { load_answer result
        ≡ answer_of
        (loads fit desk (book_of body.old heads.old mark.old free.old counts.old) key
        fks.now) }
    ensures book { book_of body.new heads.new mark.new free.new counts.new
        ≡ book_after (book_of body.old heads.old mark.old free.old counts.old)
        (loads fit desk (book_of body.old heads.old mark.old free.old counts.old) key
        fks.now) }
{
    if book_space::shape_broken(body, heads.len(), *mark) {
        return Err(Refusal::ShapeBad);
    }
    if DESKS as u64 <= desk {
        return Err(Refusal::DesksBad);
    }
    if heads.len() as u64 <= key {
        return Err(Refusal::KeyBeyond);
    }
    let at = key as usize;
    if heads[at] != 0 {
        return Err(Refusal::KeyInUse);
    }
    if MAX_OFFERED < fks.len() {
        return Err(Refusal::TooManyOffered);
    }
    let bytes = book_rules::judge_list(fks)?;
    load_judged(body, heads, mark, free, counts, desk, fit, at, fks, bytes)
}
