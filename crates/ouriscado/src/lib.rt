// The C boundary: each function calls the one of its name without the prefix; those of the account book begin with ouriscado_book. A
// result of type u32 is a number of FORMAT, Refusals, or 0. On a refusal every number that goes out is 0, and every buffer and list
// holds what it held.
#![tactic(auto)]

mod account_book;
mod account_core;
mod account_extend;
mod account_length;
mod answers;
mod class;
mod cut;
mod free;
mod handed;
mod head;
mod page_entries;
mod page_fields;
mod page_pack;
mod sizes;
mod slab;
mod stream;
mod uleb128;

pub use account_book::{
    ouriscado_book_append, ouriscado_book_check, ouriscado_book_drop, ouriscado_book_fresh,
    ouriscado_book_load, ouriscado_book_load_tight, ouriscado_book_read,
};
pub use account_core::{
    ouriscado_core_append, ouriscado_core_drop, ouriscado_core_load, ouriscado_core_load_tight,
    ouriscado_core_read,
};
pub use account_extend::{ouriscado_book_extend, ouriscado_core_extend};
pub use account_length::{ouriscado_book_length, ouriscado_core_length};
pub use class::{
    ouriscado_slab_class_for_n_fks, ouriscado_slab_class_for_n_fks_with_slack,
    ouriscado_slab_class_for_packed_len,
};
pub use cut::{ouriscado_sh_page_chunk_ranges, ouriscado_split_last_chunk_for_extent};
pub use free::{
    ouriscado_carve_gap_into_freelist, ouriscado_largest_reloc_class_le, ouriscado_pop_free_head,
    ouriscado_push_free_head,
};
pub use head::{
    ouriscado_pack8_bytes_empty, ouriscado_pack8_bytes_extent, ouriscado_pack8_bytes_inline,
    ouriscado_pack8_bytes_slab, ouriscado_pack8_empty, ouriscado_pack8_extent,
    ouriscado_pack8_inline, ouriscado_pack8_slab, ouriscado_unpack8, ouriscado_unpack8_bytes,
};
pub use page_entries::{
    ouriscado_sh_page_decode_slice_into, ouriscado_sh_page_entries_into, ouriscado_sh_page_last_fk,
    ouriscado_sh_page_stream_tail, ouriscado_sh_page_try_append, ouriscado_sh_page_write_stream,
};
pub use page_fields::{
    ouriscado_sh_page_extent, ouriscado_sh_page_extent_creates, ouriscado_sh_page_first_off,
    ouriscado_sh_page_init_empty, ouriscado_sh_page_is_last, ouriscado_sh_page_n_fks,
    ouriscado_sh_page_next, ouriscado_sh_page_read_packed, ouriscado_sh_page_require_delta,
    ouriscado_sh_page_set_extent, ouriscado_sh_page_set_extent_creates, ouriscado_sh_page_set_last,
    ouriscado_sh_page_set_n_fks, ouriscado_sh_page_set_next, ouriscado_sh_page_stream_cap,
    ouriscado_sh_page_stream_off, ouriscado_sh_page_write_packed,
};
pub use page_pack::{ouriscado_sh_page_pack_extent_last_fks, ouriscado_sh_page_pack_fks};
pub use sizes::{ouriscado_payload_start, ouriscado_slab_bytes, ouriscado_slab_cap};
pub use slab::{ouriscado_decode_slab_payload_into, ouriscado_encode_slab_payload_into};
pub use stream::{ouriscado_decode_fk_delta_stream_into, ouriscado_encode_fk_delta_stream_into};
pub use uleb128::{ouriscado_read_uleb128, ouriscado_uleb128_len, ouriscado_write_uleb128_into};
