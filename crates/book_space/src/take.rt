// Taking a block of a class, a freed one or else bytes from the mark on; and a run of pages at the mark.
ghost use Rattle.std.specs.Prelude.{◌≡◌};
ghost use Rattle.scripthash_layout.specs.Sizes.{max_slab_class, page_class, slab_bytes};
ghost use Rattle.book_limits.specs.Limits.{page_after, gap_end, pop_end};
ghost use Rattle.book_space.specs.Space.{space, take_slab, run_at_mark, take_block};
ghost use Rattle.book_space.specs.Answers.{take_answer};
ghost use Rattle.book_space.specs.Steps.{ToTake, Takes};

use error::Refusal;
use scripthash_layout::{SH_PAGE_BYTES, SH_PAGE_SLAB_CLASS};

// The end of slabs: a slab's head has 40 bits for its offset.
pub const SLABS_END: u64 = 1 << 40;

// Where the gap from the mark to a page ends that is carved: past the end of slabs it is empty.
fn gap_end(mark: u64, from: u64) -> u64
    requires { from ≡ page_after mark }
    ensures { result ≡ gap_end mark }
{
    if from <= SLABS_END {
        return from;
    }
    mark
}

// The end up to which a freed block of a class may lie that is popped.
pub fn pop_end(class: u8, mark: u64) -> u64
    ensures { result ≡ pop_end class mark }
{
    if class == SH_PAGE_SLAB_CLASS {
        return mark;
    }
    if mark < SLABS_END {
        return mark;
    }
    SLABS_END
}

// Takes a run of pages at the mark, rounded up to a page; the blocks of the gap are pushed onto their free lists. Nothing is written
// where the run would pass the body's end.
pub fn run_at_mark(
    body: &mut [u8],
    mark: &mut u64,
    free: &mut [u64; 9],
    pages: u64,
) -> Result<u64, Refusal>
    requires { ToTake (space body.old mark.old free.old) pages 65535 }
    ensures { Takes (run_at_mark pages (space body.old mark.old free.old))
        (space body.old mark.old free.old)
        (space body.new mark.new free.new) (take_answer result) }
{
    let low = *mark;
    let from = (low + (SH_PAGE_BYTES - 1)) / SH_PAGE_BYTES * SH_PAGE_BYTES;
    let end = from + pages * SH_PAGE_BYTES;
    if (body.len() as u64) < end {
        return Err(Refusal::NoRoom);
    }
    let to = gap_end(low, from);
    let _ = scripthash_free::carve_lent(body, free, low, to);
    *mark = end;
    Ok(from)
}

// Takes a slab of a class 0 to 7 at the mark.
fn take_slab(body: &[u8], mark: &mut u64, free: &mut [u64; 9], class: u8) -> Result<u64, Refusal>
    requires { ToTake (space body.now mark.old free.old) class max_slab_class }
    ensures { Takes (take_slab (slab_bytes class) (space body.now mark.old free.old))
        (space body.now mark.old free.old)
        (space body.now mark.new free.new) (take_answer result) }
{
    let low = *mark;
    let end = low + scripthash_layout::slab_bytes(class);
    if SLABS_END < end {
        return Err(Refusal::NoRoom);
    }
    if (body.len() as u64) < end {
        return Err(Refusal::NoRoom);
    }
    *mark = end;
    Ok(low)
}

// Takes a block of a class: the first freed one, or where there is none a fresh one at the mark.
pub fn take_block(
    body: &mut [u8],
    mark: &mut u64,
    free: &mut [u64; 9],
    class: u8,
) -> Result<u64, Refusal>
    requires { ToTake (space body.old mark.old free.old) class page_class }
    ensures { Takes (take_block class (space body.old mark.old free.old))
        (space body.old mark.old free.old)
        (space body.new mark.new free.new) (take_answer result) }
{
    let low = *mark;
    if let Some(off) = scripthash_free::pop_lent(body, free, class, pop_end(class, low))? {
        return Ok(off);
    }
    if class == SH_PAGE_SLAB_CLASS {
        return run_at_mark(body, mark, free, 1);
    }
    take_slab(body, mark, free, class)
}
