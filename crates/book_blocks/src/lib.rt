// What a book's calls write into blocks: slabs, last pages, runs of pages.
#![tactic(auto)]

mod page;
mod run;
mod slab;

pub use page::{grow_page, link_page, put_last_page, put_page_to, total_with};
pub use run::put_run;
pub use slab::{grow_slab, put_slab};
