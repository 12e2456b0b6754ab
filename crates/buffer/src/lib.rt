// What lent buffers hold: parts of them, writes into them, and numbers in their bytes.
#![tactic(auto)]

mod fields; // fields.rt: numbers at an offset of a buffer
mod little_endian; // little_endian.rt: numbers to and from their bytes, lowest first

pub use fields::{get_u16, get_u32, get_u40, get_u64, put_u16, put_u32, put_u40, put_u64};
pub use little_endian::{u16_of, u32_of, u64_bytes, u64_of};
