// Claiming the blocks of a key or of a free list in a work list.
ghost use Rattle.std.specs.Prelude.{List, ℕ, ◌/◌};
ghost use Rattle.scripthash_layout.specs.declared.head.ShHeadValue.TheVariants.{Slab, Extent};
ghost use Rattle.scripthash_free.specs.FreeList.{Block};
ghost use Rattle.book_space.specs.Space.{space};
ghost use Rattle.book_keys.specs.Keys.{content, content_at, body_ground, page_blocks, soundly};
ghost use Rattle.book_keys.specs.Steps.{PagesLeft};
ghost use Rattle.book_start.specs.Start.{claim_all, claim_content, claim_freed};
ghost use Rattle.book_start.specs.Units.{units_of, Marked, ClaimsAs};
ghost use Rattle.book_start.specs.Steps.{KeyToClaim, PagesToClaim, ListToClaim};

use crate::units::{PAGE_UNITS, block_units, claim_block};
use book_keys::ChainEnd;
use scripthash_layout::{SH_PAGE_SLAB_CLASS, ShHeadValue};

// Why the blocks of a key or of a free list can't all be claimed.
#[derive(Clone, Copy, Debug, PartialEq, Eq)]
pub enum ClaimFault {
    // The key isn't sound, or a block can't stand where it is named.
    Unfit,
    // A block shares a byte with one claimed before.
    Shared,
}

// Claims the pages of a sound chain, the first first.
fn claim_pages(
    body: &[u8],
    mark: u64,
    work: &mut [u8],
    first: u64,
    pages: u64,
) -> Result<u64, ClaimFault>
    requires { PagesToClaim body.now mark (units_of work.old) first pages }
    ensures { (offs : List ℕ) → PagesLeft (body_ground body.now mark) first pages offs
        → (units : ℕ) (lent : List ℕ) (claims : List Block) → Marked units mark lent claims (units_of work.old)
        → ClaimsAs units mark lent claims (claim_all claims (page_blocks offs)) result (units_of work.new) }
{
    let mut off = first;
    let mut left = pages;
    while 0 < left {
        if !claim_block(work, SH_PAGE_SLAB_CLASS, off) {
            return Err(ClaimFault::Shared);
        }
        off = book_keys::next_page(body, off);
        left -= 1;
    }
    Ok(pages * PAGE_UNITS)
}

// Claims the slab of a key.
fn claim_slab(
    body: &[u8],
    mark: u64,
    work: &mut [u8],
    class: u8,
    used: u16,
    off: u64,
) -> Result<u64, ClaimFault>
    requires { KeyToClaim body.now mark (units_of work.old) }
    ensures { (units : ℕ) (lent : List ℕ) (claims : List Block) → Marked units mark lent claims (units_of work.old)
        → ClaimsAs units mark lent claims
        (claim_content claims (soundly (content_at (body_ground body.now mark) (Slab class used off)))) result (units_of work.new) }
{
    let Ok(_) = book_keys::slab_end(body, mark, class, used, off) else {
        return Err(ClaimFault::Unfit);
    };
    if !claim_block(work, class, off) {
        return Err(ClaimFault::Shared);
    }
    Ok(block_units(class))
}

// Claims the pages of a key.
fn claim_chain(body: &[u8], mark: u64, work: &mut [u8], last: u64) -> Result<u64, ClaimFault>
    requires { KeyToClaim body.now mark (units_of work.old) }
    ensures { (units : ℕ) (lent : List ℕ) (claims : List Block) → Marked units mark lent claims (units_of work.old)
        → ClaimsAs units mark lent claims (claim_content claims (soundly (content_at (body_ground body.now mark) (Extent last)))) result
        (units_of work.new) }
{
    let Ok(ChainEnd { first, pages, .. }) = book_keys::chain_end(body, mark, last, false) else {
        return Err(ClaimFault::Unfit);
    };
    claim_pages(body, mark, work, first, pages)
}

// Claims the blocks of a key that stands at a place.
fn claim_place(
    body: &[u8],
    mark: u64,
    work: &mut [u8],
    place: ShHeadValue,
) -> Result<u64, ClaimFault>
    requires { KeyToClaim body.now mark (units_of work.old) }
    ensures { (units : ℕ) (lent : List ℕ) (claims : List Block) → Marked units mark lent claims (units_of work.old)
        → ClaimsAs units mark lent claims (claim_content claims (soundly (content_at (body_ground body.now mark) place))) result
        (units_of work.new) }
{
    match place {
        ShHeadValue::Empty => Ok(0),
        ShHeadValue::Inline { .. } => Ok(0),
        ShHeadValue::Slab { class, used, off } => claim_slab(body, mark, work, class, used, off),
        ShHeadValue::Extent { last_page } => claim_chain(body, mark, work, last_page),
    }
}

// Claims the blocks of a key, by its head word.
pub fn claim_key(body: &[u8], mark: u64, work: &mut [u8], word: u64) -> Result<u64, ClaimFault>
    requires { KeyToClaim body.now mark (units_of work.old) }
    ensures { (units : ℕ) (lent : List ℕ) (claims : List Block) → Marked units mark lent claims (units_of work.old)
        → ClaimsAs units mark lent claims (claim_content claims (content (body_ground body.now mark) word)) result
        (units_of work.new) }
{
    let Ok(place) = scripthash_layout::unpack8(word) else {
        return Err(ClaimFault::Unfit);
    };
    claim_place(body, mark, work, place)
}

// Claims the blocks of the free list of a class from its head on, over no more blocks than there is room for below the mark.
pub fn claim_freed(
    body: &[u8],
    mark: u64,
    work: &mut [u8],
    class: u8,
    head: u64,
) -> Result<u64, ClaimFault>
    requires { ListToClaim body.now mark (units_of work.old) class }
    ensures { (free : List ℕ) (units : ℕ) (lent : List ℕ) (claims : List Block)
        → Marked units mark lent claims (units_of work.old)
        → ClaimsAs units mark lent claims (claim_freed (mark / 16) (space body.now mark free) class claims head) result
        (units_of work.new) }
{
    let size = block_units(class);
    let mut off = head;
    let mut left = mark / 16;
    let mut taken: u64 = 0;
    // A freed block names the next one, so no range counts the turns.
    while off != 0 {
        if left == 0 {
            return Err(ClaimFault::Shared);
        }
        if !scripthash_free::is_block(class, off, mark) {
            return Err(ClaimFault::Unfit);
        }
        if !claim_block(work, class, off) {
            return Err(ClaimFault::Shared);
        }
        off = buffer::get_u64(body, off as usize);
        left -= 1;
        taken += size;
    }
    Ok(taken)
}
