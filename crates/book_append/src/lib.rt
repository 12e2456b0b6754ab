// Appending a number to a key (FORMAT, Append). Nothing is allocated, and a refused append leaves everything as it was. Its steps for a
// number that doesn't stay where its key stands are for `book_extend` too.
#![tactic(auto)]

mod answers;
mod appending;

pub use answers::AppendedTo;
pub use appending::{accept_append, append, append_inline, grow_chain, move_slab};
