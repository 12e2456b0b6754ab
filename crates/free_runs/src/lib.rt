// Runs out of freed pages: the list of freed pages is judged and searched for the lowest stretch, whose pages are then taken out of it.
#![tactic(auto)]

mod flags;
mod list;
mod overlaid;
mod search;
mod sparse;
mod unlinking;

pub use search::seek_run;
pub use unlinking::unlink;
