// Cutting a list into the parts that pages hold: from the source's scripthash_pages.rs.
#![tactic(auto)]

mod cut;

pub use cut::{ChunkRange, sh_page_chunk_ranges, split_last_chunk_for_extent};
