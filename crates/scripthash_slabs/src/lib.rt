// Slabs and their classes: the rest of the source's scripthash_slabs.rs.
#![tactic(auto)]

mod class;
mod payload;

pub use class::{
    SH_MEGAKEY_MIN_FKS, slab_class_for_n_fks, slab_class_for_n_fks_with_slack,
    slab_class_for_packed_len,
};
pub use payload::{SlabPayload, decode_slab_payload_into, encode_slab_payload_into};
