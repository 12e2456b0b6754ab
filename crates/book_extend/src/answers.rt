// What an extend tells.

use error::Refusal;
use scripthash_layout::ShHeadValue;

// What an extend tells: how many numbers were accepted, the refusal of the next one, if there was one, the key's place then, how many of
// the appends moved the list, and how many records these rewrote.
#[derive(Clone, Copy, Debug, PartialEq, Eq)]
pub struct ExtendedBy {
    pub count: u64,
    pub refusal: Option<Refusal>,
    pub place: ShHeadValue,
    pub moves: u64,
    pub rewritten: u64,
}
