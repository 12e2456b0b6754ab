// The work list: a bit for each unit, which is 16 bytes of the body. It is 1 where a claimed block has the unit, else 0.
ghost use Rattle.std.specs.Prelude.{◌≡◌, ◌+◌, ◌*◌, ◌≤◌, ◌<◌, length, replicate, set};
ghost use Rattle.buffer.specs.Bytes.{part, overwrite};
ghost use Rattle.scripthash_layout.specs.Sizes.{slab_bytes, page_class};
ghost use Rattle.book_start.specs.Units.{bits_of, units_of, all_free};
ghost use Rattle.book_start.specs.Steps.{BlockToClaim, BlockClaimed, PageToClaim, SlabToClaim, UnitsIn};

use scripthash_layout::{SH_PAGE_SLAB_CLASS, slab_bytes};

// The bytes of the body for which a byte of the work list stands: eight units.
pub const WORK_BYTES: usize = 128;
// The bytes of a unit.
const UNIT_BYTES: usize = 16;
// The bytes of the work list for a page.
const PAGE_WORK: usize = 32;
// The units of a page; as many lie before 4,096, where blocks begin.
pub const PAGE_UNITS: u64 = 256;

// The units of a block of a class.
pub fn block_units(class: u8) -> u64
    requires { class ≤ page_class }
    ensures { slab_bytes class ≡ 16 * result }
{
    slab_bytes(class) / 16
}

// Tells whether `count` bytes are 0, from index `from` on.
fn bytes_free(work: &[u8], from: usize, count: usize) -> bool
    requires { from + count ≤ length work.now }
    ensures { result ≡ all_free (part work.now from count) }
{
    let end = from + count;
    for i in from..end {
        if work[i] != 0 {
            return false;
        }
    }
    true
}

// Gives `count` bytes a value, from index `from` on.
pub fn fill_bytes(work: &mut [u8], from: usize, count: usize, value: u8)
    requires { from + count ≤ length work.old }
    ensures { work.new ≡ overwrite work.old from (replicate count value) }
{
    let end = from + count;
    for i in from..end {
        work[i] = value;
    }
}

// A byte with a bit, by its index 0 to 7.
fn with_bit(w: u8, bit: usize) -> u8
    requires { bit < 8 }
    ensures { bits_of result ≡ set (bits_of w) bit 1 }
{
    if (w >> bit) % 2 != 0 {
        return w;
    }
    w + (1 << bit)
}

// Tells whether `count` units are free, from index `from` on.
fn units_free(work: &[u8], from: usize, count: usize) -> bool
    requires { UnitsIn from count work.now }
    ensures { result ≡ all_free (part (units_of work.now) from count) }
{
    let end = from + count;
    for i in from..end {
        if (work[i / 8] >> (i % 8)) % 2 != 0 {
            return false;
        }
    }
    true
}

// Marks `count` units, from index `from` on.
fn mark_units(work: &mut [u8], from: usize, count: usize)
    requires { UnitsIn from count work.old }
    ensures { units_of work.new ≡ overwrite (units_of work.old) from (replicate count 1) }
{
    let end = from + count;
    for i in from..end {
        let at = i / 8;
        work[at] = with_bit(work[at], i % 8);
    }
}

// Claims a page at an offset: its units are whole bytes of the work list.
fn claim_page(work: &mut [u8], off: u64) -> bool
    requires { PageToClaim off (units_of work.old) }
    ensures { BlockClaimed page_class off (units_of work.old) result (units_of work.new) }
{
    let from = off as usize / WORK_BYTES;
    if !bytes_free(work, from, PAGE_WORK) {
        return false;
    }
    fill_bytes(work, from, PAGE_WORK, 255);
    true
}

// Claims the slab of a class at an offset, unit by unit.
fn claim_units(work: &mut [u8], class: u8, off: u64) -> bool
    requires { SlabToClaim class off (units_of work.old) }
    ensures { BlockClaimed class off (units_of work.old) result (units_of work.new) }
{
    let from = off as usize / UNIT_BYTES;
    let count = slab_bytes(class) as usize / UNIT_BYTES;
    if !units_free(work, from, count) {
        return false;
    }
    mark_units(work, from, count);
    true
}

// Claims the block of a class at an offset: marks its units, or tells that one of them is taken and marks none.
pub fn claim_block(work: &mut [u8], class: u8, off: u64) -> bool
    requires { BlockToClaim class off (units_of work.old) }
    ensures { BlockClaimed class off (units_of work.old) result (units_of work.new) }
{
    if class == SH_PAGE_SLAB_CLASS {
        return claim_page(work, off);
    }
    claim_units(work, class, off)
}
