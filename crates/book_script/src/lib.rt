// What the account book's shell reads and says: the lines of a script, what each asks for, and answers in words. Nothing here has a book.
#![tactic(auto)]

mod asked;
mod helped;
mod reading;
mod refusals;
mod reports;
mod said;
mod shown;

pub use asked::{Command, ask, echo};
pub use helped::help;
pub use reading::Lines;
pub use refusals::{refused, stopped};
pub use reports::{
    BODY_BYTES, DESKS, KEYS, LINE_BYTES, LISTED, NUMBERS, Unread, WORK_BYTES, report,
};
pub use said::{
    appended, body_made, ceiling_told, desk_told, dropped, ended, extended, keys_made, listed,
    loaded, reserve_told,
};
pub use shown::{places, space};
