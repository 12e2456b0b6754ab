// The layout of posting lists, the parts of the source's scripthash_layout.rs that are ported: the head word of a key, and the sizes of
// slabs and pages.
#![tactic(auto)]

mod head;
mod sizes;

pub use head::{
    SH_PREFIX_PAGE, ShHeadValue, pack8, pack8_bytes, payload_start, unpack8, unpack8_bytes,
};
pub use sizes::{
    SH_MAX_SLAB_BYTES, SH_MAX_SLAB_CLASS, SH_PAGE_BYTES, SH_PAGE_SIZE, SH_PAGE_SLAB_CLASS,
    SH_SLAB_BASE, SH_SLAB_BASE_BYTES, slab_bytes, slab_cap,
};
