// Rules for where a list goes, over its count and the bytes of its stream.
ghost use Rattle.std.specs.Prelude.{◌≡◌, ◌≤◌, ◌<◌, ◌^◌};
ghost use Rattle.scripthash_layout.specs.Sizes.{max_slab_class, max_slab_count};
ghost use Rattle.scripthash_slabs.specs.Answers.{chosen};
ghost use Rattle.book_rules.specs.Places.{stays, moves_to, loads_to};
ghost use Rattle.book_rules.specs.Steps.{SpareBytes};

// The most numbers that a slab is given.
const MOST_IN_SLAB: usize = 256;
// The two bytes of a slab's count.
const COUNT_BYTES: usize = 2;
// The bytes of a slab for each of its slots.
const SLOT_BYTES: usize = 4;

// How a load's slab fits its list: with a spare slot for the next record, or tight.
#[derive(Clone, Copy, Debug, PartialEq, Eq)]
pub enum SlabFit {
    Spare,
    Tight,
}

// Tells whether a list stays in a slab of a class: it has at most 256 numbers, and the slab has slots for them and bytes for their payload.
pub fn stays(class: u8, count: usize, bytes: usize) -> bool
    requires { (class ≤ max_slab_class) × (bytes < 2 ^ 40) }
    ensures { result ≡ stays class count bytes }
{
    if MOST_IN_SLAB < count {
        return false;
    }
    let slots: usize = 4 << class;
    if slots < count {
        return false;
    }
    let size: usize = 16 << class;
    COUNT_BYTES + bytes <= size
}

// The bytes of slots for a list with a number to spare, and for just the list where no slab takes more: a slot has four.
fn spare_bytes(count: usize) -> usize
    requires { (1 ≤ count) × (count ≤ max_slab_count) }
    ensures { SpareBytes count result }
{
    SLOT_BYTES * (count + 1).min(MOST_IN_SLAB)
}

// The class of the slab that a list moves to: the larger of the slack class and the class by bytes; none where it moves to a page. Slots
// are looked up as bytes, so that one class is looked up for both.
#[tactic(auto, using(crate::proofs::LawsRules::moves_none, crate::proofs::LawsRules::moves_by_bytes))]
pub fn moves_to(count: usize, bytes: usize) -> Option<u8>
    requires { (1 ≤ count) × (bytes < 2 ^ 40) }
    ensures { chosen result ≡ moves_to count bytes }
{
    if MOST_IN_SLAB < count {
        return None;
    }
    let wanted = spare_bytes(count).max(COUNT_BYTES + bytes);
    scripthash_slabs::slab_class_for_packed_len(wanted)
}

// The class of the slab that a load gives a list, none where it goes to a run of pages: with a spare slot the class of a move, tight the
// class by bytes.
#[tactic(auto, using(crate::proofs::LawsRules::loads_none, crate::proofs::LawsRules::loads_by_bytes), unfolding(crate::specs::Places::loads_to))]
pub fn loads_to(fit: SlabFit, count: usize, bytes: usize) -> Option<u8>
    requires { (1 ≤ count) × (bytes < 2 ^ 40) }
    ensures { chosen result ≡ loads_to fit count bytes }
{
    if MOST_IN_SLAB < count {
        return None;
    }
    match fit {
        SlabFit::Spare => moves_to(count, bytes),
        SlabFit::Tight => scripthash_slabs::slab_class_for_packed_len(COUNT_BYTES + bytes),
    }
}
