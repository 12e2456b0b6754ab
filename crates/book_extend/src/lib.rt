// Extending a key by many numbers in one call, as if they were appended one after another (FORMAT, Append). Nothing is allocated; a refused
// extend leaves everything as it was, and a refused number ends the call behind those that were accepted.
#![tactic(auto)]

mod answers;
mod extending;
mod form;
mod page;
mod past;
mod slab;

pub use answers::ExtendedBy;
pub use extending::extend;
