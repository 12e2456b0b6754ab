// What an append tells.

use scripthash_layout::ShHeadValue;

// What an accepted append tells: the key's new place, and the records rewritten by a move, else 0.
// `rewritten` stays a number with 0 for no move: so the C interface tells it.
#[derive(Clone, Copy, Debug, PartialEq, Eq)]
pub struct AppendedTo {
    pub place: ShHeadValue,
    pub rewritten: u64,
}
