// The numbers of a page: read, appended, and whole pages packed, from the source's scripthash_pages.rs.
#![tactic(auto)]

mod answers;
mod appending;
mod entries;
mod pack;

pub use answers::{PageEntries, PageSlice, TryAppend};
pub use appending::{sh_page_try_append, sh_page_write_stream};
pub use entries::{
    sh_page_decode_slice_into, sh_page_entries_into, sh_page_last_fk, sh_page_stream_tail,
};
pub use pack::{sh_page_pack_extent_last_fks, sh_page_pack_fks};
