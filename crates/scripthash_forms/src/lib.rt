// Forms of streams read quickly, one by one: summed up, and read into a list.
#![tactic(auto)]

mod forms;
mod parts;

pub use forms::{StreamEnd, sum_forms};
pub use parts::{copy_fks, decode_parts};
