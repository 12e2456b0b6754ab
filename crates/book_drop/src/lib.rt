// Dropping a key (FORMAT, Drop): its blocks are given back. Nothing is allocated, and a refused drop leaves everything as it was.
#![tactic(auto)]

mod dropping;

pub use dropping::drop;
