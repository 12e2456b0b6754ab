// What the calls of the account book over one lent body share (FORMAT, The calls): the head words of its keys, and a list written
// anew. The calls are `book_append`, `book_load`, `book_read` and `book_drop`; `book_start` makes and judges books.
#![tactic(auto)]

mod call;
mod head;
mod place;

pub use call::judge_call;
pub use head::put_head;
pub use place::{move_list, place_in_slab};
