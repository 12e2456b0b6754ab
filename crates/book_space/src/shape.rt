// The shape of a space: the lengths of its body and of its heads, and its mark.
ghost use Rattle.std.specs.Prelude.{ℕ, List, ◌≡◌};
ghost use Rattle.book_limits.specs.Limits.{out_of_shape};
ghost use Rattle.book_space.specs.Space.{space, mark_bad, shape_broken};

use scripthash_layout::{SH_PAGE_SIZE, SH_PREFIX_PAGE};

// The least length of a body.
const LEAST_BODY: usize = 8192;
// The greatest length of a body.
const MOST_BODY: usize = 2199023255552;
// The most heads, one for each key.
const MOST_HEADS: usize = 65536;

// Tells whether the lengths of a body and of its heads break the limits.
pub fn out_of_shape(size: usize, heads: usize) -> bool
    ensures { result ≡ out_of_shape size heads }
{
    if size % SH_PAGE_SIZE != 0 {
        return true;
    }
    if size < LEAST_BODY {
        return true;
    }
    if MOST_BODY < size {
        return true;
    }
    if heads == 0 {
        return true;
    }
    MOST_HEADS < heads
}

// Tells whether a mark isn't a multiple of 16, or leaves 4,096 to the body's end.
fn mark_bad(size: u64, mark: u64) -> bool
    ensures { result ≡ mark_bad size mark }
{
    if mark % 16 != 0 {
        return true;
    }
    if mark < SH_PREFIX_PAGE {
        return true;
    }
    size < mark
}

// Tells whether the shape of a space with so many heads breaks the limits: its lengths, or its mark.
pub fn shape_broken(body: &[u8], heads: usize, mark: u64) -> bool
    ensures { (free : List ℕ) → result ≡ shape_broken (space body.now mark free) heads }
{
    if out_of_shape(body.len(), heads) {
        return true;
    }
    mark_bad(body.len() as u64, mark)
}
