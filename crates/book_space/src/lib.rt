// The space of an account book over one lent body: its shape, and blocks taken and given back.
#![tactic(auto)]

mod desks;
mod release;
mod shape;
mod take;

pub use desks::{give_back, page_for, run_for, slab_for};
pub use release::release_block;
pub use shape::{out_of_shape, shape_broken};
pub use take::{run_at_mark, take_block};
