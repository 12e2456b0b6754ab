// Extending a key by many numbers, for a desk.
// Sizes and numbers of 64 bits are cast with `as`, since Rust has no From between them: each cast is proved to fit.
ghost use Rattle.std.specs.Prelude.{◌≡◌, ◌≤◌, ◌<◌, length};
ghost use Rattle.error.specs.Refusal.{accepted};
ghost use Rattle.scripthash_layout.specs.Head.{unpack_head};
ghost use Rattle.scripthash_layout.specs.declared.head.ShHeadValue.{ShHeadValue as HeadValue};
ghost use Rattle.book_rules.specs.Outcomes.{book_after, answer_of};
ghost use Rattle.book.specs.Book.{Outcome};
ghost use Rattle.book.specs.Answers.{book_of};
ghost use Rattle.book_extend.specs.Extends.{Extended as ExtendedTold, extended, moved, extends};
ghost use Rattle.book_extend.specs.Answers.{extended_by, extend_answer, refusal_number};
ghost use Rattle.book_extend.specs.Steps.{Extending, Reaches, GoesOn, Begun, EndsAs};

use crate::answers::ExtendedBy;
use crate::page::extend_page;
use crate::past::append_past;
use crate::slab::extend_slab;
use book_desks::DESKS;
use error::Refusal;
use scripthash_layout::ShHeadValue;

// Puts the numbers of a list from an index on into the block where a key stands, as many as it takes; of a key without one it takes none.
fn extend_in_place(
    body: &mut [u8],
    heads: &mut [u64],
    mark: u64,
    key: usize,
    fks: &[u64],
    from: usize,
) -> Result<usize, Refusal>
    requires { (mark ≤ length body.old) × (key < length heads.old) × (from ≤ length fks.now) }
    ensures { Reaches body.old heads.old mark key fks.now from
        body.new heads.new result }
{
    let Ok(place) = scripthash_layout::unpack8(heads[key]) else {
        return Err(Refusal::KeyUnsound);
    };
    match place {
        ShHeadValue::Empty | ShHeadValue::Inline { .. } => Ok(from),
        ShHeadValue::Slab { class, used, off } => {
            extend_slab(body, heads, mark, key, class, used, off, fks, from)
        }
        ShHeadValue::Extent { last_page } => {
            extend_page(body, heads, mark, key, last_page, fks, from)
        }
    }
}

// Goes on behind an append from an index on: as many numbers as the key's block takes, none where there are none left. Where the shape or
// the key isn't good it takes none, and the next append judges that.
fn go_on(
    body: &mut [u8],
    heads: &mut [u64],
    mark: u64,
    key: usize,
    fks: &[u64],
    from: usize,
) -> usize
    requires { (key < length heads.old) × (from ≤ length fks.now) }
    ensures { GoesOn body.old heads.old mark key fks.now from
        body.new heads.new result }
{
    if from == fks.len() {
        return from;
    }
    if book_space::shape_broken(body, heads.len(), mark) {
        return from;
    }
    extend_in_place(body, heads, mark, key, fks, from).unwrap_or(from)
}

// The place that a head word tells, of one that tells a place.
fn place_in(word: u64) -> ShHeadValue
    ensures { (place : HeadValue) → unpack_head word ≡ accepted place → result ≡ place }
{
    scripthash_layout::unpack8(word).unwrap_or(ShHeadValue::Empty)
}

// How many moves an append counts as that rewrote so many records.
fn moved(rewritten: u64) -> u64
    ensures { result ≡ moved rewritten }
{
    u64::from(rewritten != 0)
}

// What is told of an extend, with the key's place as its head word tells it.
fn told(count: usize, refusal: Option<Refusal>, word: u64, moves: u64, rewritten: u64) -> ExtendedBy
    ensures { (place : HeadValue) → unpack_head word ≡ accepted place
        → extended_by result ≡ extended count (refusal_number refusal) place moves rewritten }
{
    let place = place_in(word);
    ExtendedBy {
        count: count as u64,
        refusal,
        place,
        moves,
        rewritten,
    }
}

// Appends the numbers of a list from an index on, till one is refused: each that its key's block doesn't take by an append of its own.
fn append_from(
    body: &mut [u8],
    heads: &mut [u64],
    mark: &mut u64,
    free: &mut [u64; 9],
    counts: &mut [u64; 49],
    desk: u64,
    key: u64,
    fks: &[u64],
    from: usize,
) -> ExtendedBy
    requires { Begun desk (book_of body.old heads.old mark.old free.old counts.old) key fks.now from }
    ensures { (whole : Outcome ExtendedTold) → Extending desk key fks.now whole
        (book_of body.old heads.old mark.old free.old counts.old) from 0 0
        → EndsAs whole (book_of body.new heads.new mark.new free.new counts.new)
        (extended_by result) }
{
    let at = key as usize;
    let mut i = from;
    let mut moves = 0;
    let mut rewritten = 0;
    // The step isn't one: each turn goes on by as many numbers as the key's block takes behind the append, so no range counts it.
    while i < fks.len() {
        let n = fks[i];
        let to = match append_past(body, heads, mark, free, counts, desk, key, n) {
            Ok(to) => to,
            Err(refusal) => return told(i, Some(refusal), heads[at], moves, rewritten),
        };
        moves += moved(to.rewritten);
        rewritten += to.rewritten;
        i = go_on(body, heads, *mark, at, fks, i + 1);
    }
    told(i, None, heads[at], moves, rewritten)
}

// Extends a key by the numbers of a list, for a desk: the shape, the desk, whether there is such a key and whether it is sound are judged,
// and then the numbers are appended one after another till one is refused.
pub fn extend(
    body: &mut [u8],
    heads: &mut [u64],
    mark: &mut u64,
    free: &mut [u64; 9],
    counts: &mut [u64; 49],
    desk: u64,
    key: u64,
    fks: &[u64],
) -> Result<ExtendedBy, Refusal>
    ensures answer { extend_answer result
        ≡ answer_of (extends desk
        (book_of body.old heads.old mark.old free.old counts.old) key
        fks.now) }
    ensures book { book_of body.new heads.new mark.new free.new counts.new
        ≡ book_after (book_of body.old heads.old mark.old free.old counts.old)
        (extends desk
        (book_of body.old heads.old mark.old free.old counts.old) key
        fks.now) }
{
    if book_space::shape_broken(body, heads.len(), *mark) {
        return Err(Refusal::ShapeBad);
    }
    if DESKS as u64 <= desk {
        return Err(Refusal::DesksBad);
    }
    if heads.len() as u64 <= key {
        return Err(Refusal::KeyBeyond);
    }
    let from = extend_in_place(body, heads, *mark, key as usize, fks, 0)?;
    Ok(append_from(body, heads, mark, free, counts, desk, key, fks, from))
}
