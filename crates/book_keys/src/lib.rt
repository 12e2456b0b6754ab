// The keys of an account book over bytes: whether a key is sound, how long its list is, and the list itself.
#![tactic(auto)]

mod chain;
mod key;
mod lengths;
mod slab;

pub use chain::{ChainEnd, TailEnd, chain_end, next_page, tail_end};
pub use key::{KeyCounts, read_key};
pub use lengths::key_length;
pub use slab::{slab_end, slab_into};
