// Streams of rising numbers: the part of the source's scripthash_slabs.rs that slabs and pages share.
#![tactic(auto)]

mod encode;
mod padded;
mod stream;

pub use encode::{encode_fk_delta_stream_into, put_fks, put_form};
pub use padded::count_padded;
pub use stream::{
    BIT_63, MAX_OFFERED, Scanned, StreamRead, decode_in_two_passes, scan_by_number, wide,
};
