// Sizes of blocks by class: each class has twice the bytes and the slots of the one before.
ghost use Rattle.std.specs.Prelude.{◌≡◌};
ghost use Rattle.scripthash_layout.specs.Sizes.{slab_bytes, slab_slots, where_below};

// The slots of class 0.
pub const SH_SLAB_BASE: u32 = 4;
// The bytes of class 0.
pub const SH_SLAB_BASE_BYTES: u64 = 16;
// The largest class of a slab.
pub const SH_MAX_SLAB_CLASS: u8 = 7;
// The bytes of the largest slab.
pub const SH_MAX_SLAB_BYTES: usize = 2048;
// The class of a page.
pub const SH_PAGE_SLAB_CLASS: u8 = 8;
// The bytes of a page.
pub const SH_PAGE_SIZE: usize = 4096;
// The same, as an offset counts them.
pub const SH_PAGE_BYTES: u64 = 4096;

// How many numbers a slab of a class has slots for, or 0 where that passes 32 bits. Not one generic function with `slab_bytes`: it would take
// a trait of shifts for two lines.
pub fn slab_cap(class: u8) -> u32
    ensures { result ≡ where_below 32 (slab_slots class) }
{
    if class < 30 { SH_SLAB_BASE << class } else { 0 }
}

// How many bytes a block of a class has, or 0 where that passes 64 bits.
pub fn slab_bytes(class: u8) -> u64
    ensures { result ≡ where_below 64 (slab_bytes class) }
{
    if class < 60 {
        SH_SLAB_BASE_BYTES << class
    } else {
        0
    }
}
