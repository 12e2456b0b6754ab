// Free lists, the part of the source's scripthash.rs that is ported: freed blocks by class, each of which names the next in its
// first 8 bytes. A lent body stands in for the file.
#![tactic(auto)]

ghost use Rattle.std.specs.Prelude.{◌≡◌, Bool, ◌+◌, ◌≤◌, ◌<◌, min, length};
ghost use Rattle.error.specs.Refusal.{answered};
ghost use Rattle.scripthash_layout.specs.Sizes.{max_slab_class, page_class};
ghost use Rattle.scripthash_free.specs.FreeList.{Pop, lists, is_block, pushed, push_free, pop_free, reloc_class, gap_blocks, push_all};
ghost use Rattle.scripthash_free.specs.FreeList.{is_gap, carve_gap, lists_after, heads_after};
ghost use Rattle.scripthash_free.specs.Answers.{class_answer, push_answer, pop_answer, was_done};

use error::Refusal;
use scripthash_layout::{
    SH_MAX_SLAB_CLASS, SH_PAGE_BYTES, SH_PAGE_SLAB_CLASS, SH_PREFIX_PAGE, SH_SLAB_BASE_BYTES,
};

// The bytes of the largest slab.
const LARGEST_BYTES: u64 = 2048;

// The offset of the first freed block of each class, 0 to 8, and 0 where a class has none.
#[derive(Clone, Copy, Debug, PartialEq, Eq)]
pub struct FreeHeads {
    pub heads: [u64; 9],
}

// The answer of a push, and the free heads after it.
#[derive(Clone, Copy, Debug, PartialEq, Eq)]
pub struct AfterPush {
    pub answer: Result<(), Refusal>,
    pub free: FreeHeads,
}

// The answer of a pop, and the free heads after it.
#[derive(Clone, Copy, Debug, PartialEq, Eq)]
pub struct AfterPop {
    pub answer: Result<Option<u64>, Refusal>,
    pub free: FreeHeads,
}

// The largest class of a slab whose blocks have at most so many bytes. Class c begins at 16 * 2 ^ c bytes, so below those of the largest
// the class is one less than the length in bits of bytes / 16.
pub fn largest_reloc_class_le(bytes: u64) -> Option<u8>
    ensures { class_answer result ≡ reloc_class bytes }
{
    if bytes < SH_SLAB_BASE_BYTES {
        return None;
    }
    if bytes >= LARGEST_BYTES {
        return Some(SH_MAX_SLAB_CLASS);
    }
    let zeros = u64::leading_zeros(bytes / 16);
    Some((63 - zeros) as u8)
}

// Tells whether a page can stand at an offset and end at or below an end.
pub fn is_page(off: u64, end: u64) -> bool
    ensures { result ≡ is_block page_class off end }
{
    if off % SH_PAGE_BYTES != 0 {
        return false;
    }
    if off < SH_PREFIX_PAGE {
        return false;
    }
    if end < off {
        return false;
    }
    if end - off < SH_PAGE_BYTES {
        return false;
    }
    true
}

// Tells whether a slab of a class 0 to 7 can stand at an offset and end at or below an end: what is left there has 16 or more parts of
// 2 ^ class bytes.
pub fn is_slab(class: u8, off: u64, end: u64) -> bool
    requires { class ≤ max_slab_class }
    ensures { result ≡ is_block class off end }
{
    if off < SH_PREFIX_PAGE {
        return false;
    }
    if end < off {
        return false;
    }
    if off % 16 != 0 {
        return false;
    }
    if ((end - off) >> class) < SH_SLAB_BASE_BYTES {
        return false;
    }
    true
}

// Tells whether a block of a class can stand at an offset and end at or below an end.
pub fn is_block(class: u8, off: u64, end: u64) -> bool
    ensures { result ≡ is_block class off end }
{
    if class >= SH_PAGE_SLAB_CLASS {
        if class == SH_PAGE_SLAB_CLASS {
            return is_page(off, end);
        }
        return false;
    }
    is_slab(class, off, end)
}

// Makes a block the head of its class's free list: writes the head so far to its first 8 bytes.
#[tactic(auto, unfolding(crate::specs::FreeList::pushed))]
fn put_free_head(body: &mut [u8], heads: &mut [u64; 9], class: u8, off: u64)
    requires { (class ≤ 8) × (off + 8 ≤ length body.old) }
    ensures { lists body.new heads.new ≡ pushed class off (lists body.old heads.old) }
{
    let idx = usize::from(class);
    let head = heads[idx];
    buffer::put_u64(body, off as usize, head);
    heads[idx] = off;
}

// Pushes a block onto its class's free list, with the free heads lent: its first 8 bytes name the head so far, and it becomes the head.
// A block that a pop would turn back isn't pushed.
pub fn push_lent(body: &mut [u8], heads: &mut [u64; 9], class: u8, off: u64) -> Result<(), Refusal>
    ensures answer { push_answer result ≡ answered was_done (push_free class off (lists body.old heads.old)) }
    ensures lists { lists body.new heads.new
        ≡ lists_after (push_free class off (lists body.old heads.old))
        (lists body.old heads.old) }
{
    if is_block(class, off, body.len() as u64) {
        put_free_head(body, heads, class, off);
        return Ok(());
    }
    Err(Refusal::FreeHeadBad)
}

// Pushes a block onto its class's free list, with the free heads by value: the source's call, a promise that stays.
pub fn push_free_head(body: &mut [u8], free: FreeHeads, class: u8, off: u64) -> AfterPush
    ensures answer { push_answer result.answer ≡ answered was_done (push_free class off (lists body.old free.heads)) }
    ensures lists { lists body.new result.free.heads
        ≡ lists_after (push_free class off (lists body.old free.heads)) (lists body.old free.heads) }
{
    let mut heads = free.heads;
    let answer = push_lent(body, &mut heads, class, off);
    AfterPush {
        answer,
        free: FreeHeads { heads },
    }
}

// Pops a block of a class, with the free heads lent: gives the head, and makes the offset in its first 8 bytes the head. None where the
// head is 0 or the class has no head. The block must lie below the mark, and within the body.
#[tactic(auto, using(crate::proofs::LawsBlock::block_stands, crate::proofs::LawsBlock::bytes_from_16), unfolding(crate::specs::FreeList::pop_free, crate::specs::FreeList::heads_after, error::specs::Refusal::refuse_if, error::specs::Refusal::answered))]
pub fn pop_lent(
    body: &[u8],
    heads: &mut [u64; 9],
    class: u8,
    mark: u64,
) -> Result<Option<u64>, Refusal>
    ensures answer { pop_answer result
        ≡ answered (λ (p : Pop). p.block) (pop_free class mark (lists body.now heads.old)) }
    ensures heads { heads.new
        ≡ heads_after (pop_free class mark (lists body.now heads.old)) heads.old }
{
    if class > SH_PAGE_SLAB_CLASS {
        return Ok(None);
    }
    let idx = usize::from(class);
    let off = heads[idx];
    if off == 0 {
        return Ok(None);
    }
    if is_block(class, off, mark.min(body.len() as u64)) {
        heads[idx] = buffer::get_u64(body, off as usize);
        return Ok(Some(off));
    }
    Err(Refusal::FreeHeadBad)
}

// Pops a block of a class, with the free heads by value: the source's call, a promise that stays.
pub fn pop_free_head(body: &[u8], free: FreeHeads, class: u8, mark: u64) -> AfterPop
    ensures answer { pop_answer result.answer
        ≡ answered (λ (p : Pop). p.block) (pop_free class mark (lists body.now free.heads)) }
    ensures heads { result.free.heads ≡ heads_after (pop_free class mark (lists body.now free.heads)) free.heads }
{
    let mut heads = free.heads;
    let answer = pop_lent(body, &mut heads, class, mark);
    AfterPop {
        answer,
        free: FreeHeads { heads },
    }
}

// Tells whether a gap can be carved: it is empty, or begins at a multiple of 16 and lies between 4,096 and an end.
fn is_gap(from: u64, to: u64, end: u64) -> bool
    ensures { result ≡ is_gap from to end }
{
    if to <= from {
        return true;
    }
    if from % 16 != 0 {
        return false;
    }
    if from < SH_PREFIX_PAGE {
        return false;
    }
    to <= end
}

// Pushes blocks of the largest slab class from the low end of a gap on, as long as they fit. Gives where the rest begins.
fn push_largest(body: &mut [u8], heads: &mut [u64; 9], from: u64, to: u64) -> u64
    requires { (from ≤ to) × (to ≤ length body.old) }
    ensures rest { (result ≤ to) × (to < result + 2048) }
    ensures lists { push_all (gap_blocks result to) (lists body.new heads.new)
        ≡ push_all (gap_blocks from to) (lists body.old heads.old) }
{
    let mut off = from;
    // The step isn't one: each turn goes on by a block's length, so no range counts it.
    while to - off >= LARGEST_BYTES {
        put_free_head(body, heads, SH_MAX_SLAB_CLASS, off);
        off += LARGEST_BYTES;
    }
    off
}

// Pushes the blocks that a gap smaller than the largest slab is carved into: at most one of each class, the largest first.
fn push_smaller(body: &mut [u8], heads: &mut [u64; 9], from: u64, to: u64)
    requires { (from ≤ to) × (to ≤ length body.old) × (to < from + 2048) }
    ensures { lists body.new heads.new
        ≡ push_all (gap_blocks from to) (lists body.old heads.old) }
{
    let mut off = from;
    for class in (0..SH_MAX_SLAB_CLASS).rev() {
        let size = scripthash_layout::slab_bytes(class);
        if size <= to - off {
            put_free_head(body, heads, class, off);
            off += size;
        }
    }
}

// Carves the gap between two offsets into blocks, from its low end, the largest class up to 7 first, and pushes each, with the free heads
// lent. A rest below 16 bytes is left. A gap that has bytes must begin at a multiple of 16 and lie between 4,096 and the body's end.
pub fn carve_lent(body: &mut [u8], heads: &mut [u64; 9], from: u64, to: u64) -> Result<(), Refusal>
    ensures answer { push_answer result ≡ answered was_done (carve_gap from to (lists body.old heads.old)) }
    ensures lists { lists body.new heads.new
        ≡ lists_after (carve_gap from to (lists body.old heads.old))
        (lists body.old heads.old) }
{
    if !is_gap(from, to, body.len() as u64) {
        return Err(Refusal::FreeHeadBad);
    }
    if from < to {
        let rest = push_largest(body, heads, from, to);
        push_smaller(body, heads, rest, to);
    }
    Ok(())
}

// Carves the gap between two offsets into blocks, and pushes each, with the free heads by value: the source's call, a promise that stays.
pub fn carve_gap_into_freelist(body: &mut [u8], free: FreeHeads, from: u64, to: u64) -> AfterPush
    ensures answer { push_answer result.answer ≡ answered was_done (carve_gap from to (lists body.old free.heads)) }
    ensures lists { lists body.new result.free.heads
        ≡ lists_after (carve_gap from to (lists body.old free.heads)) (lists body.old free.heads) }
{
    let mut heads = free.heads;
    let answer = carve_lent(body, &mut heads, from, to);
    AfterPush {
        answer,
        free: FreeHeads { heads },
    }
}
