// Reading a key's list, and telling how long it is (FORMAT, Read, Length). Nothing is allocated, and a refused read leaves the lent list
// as it was.
#![tactic(auto)]

mod answers;
mod lengths;
mod reading;

pub use answers::BookRead;
pub use lengths::length;
pub use reading::read;
