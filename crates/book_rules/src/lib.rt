// What books have in common (FORMAT, The calls). The code judges what is offered, and has the rules for where a list goes; what calls
// tell is a definition (specs/) alone.
#![tactic(auto)]

mod offered;
mod places;

pub use offered::{judge_list, judge_number};
pub use places::{SlabFit, loads_to, moves_to, stays};
