// The fields of a page's header: from the source's scripthash_pages.rs.
#![tactic(auto)]

mod accessors;
mod answers;
mod fields;

pub use accessors::{
    sh_page_extent, sh_page_extent_creates, sh_page_init_empty, sh_page_is_last, sh_page_next,
    sh_page_set_extent, sh_page_set_extent_creates, sh_page_set_last, sh_page_set_n_fks,
    sh_page_set_next, sh_page_stream_cap, sh_page_stream_off, sh_page_write_packed,
};
pub use answers::{PageExtent, PageLink};
pub use fields::{
    SH_PAGE_DELTA_VER, SH_PAGE_EXTENT_HEADER_LEN, SH_PAGE_EXTENT_VER, SH_PAGE_HEADER_LEN,
    SH_PAGE_OFF_EXTENT_BASE, SH_PAGE_OFF_EXTENT_CREATES, SH_PAGE_OFF_EXTENT_N, SH_PAGE_OFF_N_FKS,
    SH_PAGE_OFF_PACKED, SH_PAGE_OFF_VER, check_extent, check_link, link_of, link_to, names_extent,
    next_off, page_link, sh_page_first_off, sh_page_n_fks, sh_page_read_packed,
    sh_page_require_delta, stream_off, version_of, whole_page,
};
