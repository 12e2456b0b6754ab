// Desks that share a body: the list that names them, the counts of their pages, and what a take is judged by.
#![tactic(auto)]

mod counts;
mod lists;

pub use counts::{CEILING, HELD, RESERVE, counts_high, permission, sum_of_lacks, to_be_had};
pub use lists::{beyond_desks, desk_of, list_bad};

// How many desks there are.
pub const DESKS: usize = 16;
