// Streams of rising numbers scanned and read: the fast paths over forms and bytes, and the functions that take them.
#![tactic(auto)]

mod ends;
mod fill;
mod look;
mod quick;
mod streams;
mod stretch;
mod weigh;

pub use fill::{fill_fk_delta_stream, read_short_stream};
pub use streams::{decode_fk_delta_stream_into, scan_fk_delta_stream};
