// How a book starts: made fresh, or from a body, head words and a state that were written elsewhere, which are judged: every key is sound,
// every free list ends and holds only blocks that can stand below the mark, no two blocks share a byte, and the counts of desks are true
// and promise only what can be kept. Nothing is allocated: a lent work list has a bit for each 16 bytes of the body.
#![tactic(auto)]

mod claiming;
mod counts;
mod judging;
mod making;
mod units;

pub use judging::{Verdict, judge_start};
pub use making::fresh;
