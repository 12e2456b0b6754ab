// The list that names each key's desk: a byte for each head.
ghost use Rattle.std.specs.Prelude.{◌≡◌};
ghost use Rattle.book_desks.specs.Desks.{beyond_desks, list_bad, desk_of};

// Tells whether a byte of a list is no desk. The largest of all is looked for, with no way out before the end, so that many are compared
// at a time.
pub fn beyond_desks(desks: &[u8]) -> bool
    ensures { result ≡ beyond_desks desks.now }
{
    let mut top: u8 = 0;
    for desk in desks {
        top = top.max(*desk);
    }
    16 <= top
}

// Tells whether a list isn't one for so many heads: it is of another length, or a byte is no desk.
#[tactic(auto, unfolding(crate::specs::Desks::list_bad))]
pub fn list_bad(desks: &[u8], heads: usize) -> bool
    ensures { result ≡ list_bad desks.now heads }
{
    desks.len() != heads || beyond_desks(desks)
}

// The desk that a list names for a key; 0 past its end.
pub fn desk_of(desks: &[u8], key: u64) -> u64
    ensures { result ≡ desk_of desks.now key }
{
    desks.get(key as usize).map_or(0, |desk| u64::from(*desk))
}
