// Dropping a key, for a desk: its pages are judged by the counts, its blocks are given back, and its head word is emptied.
// Sizes and numbers of 64 bits are cast with `as`, since Rust has no From between them: each cast is proved to fit.
ghost use Rattle.std.specs.Prelude.{List, ◌≡◌, ℕ, ◌<◌, length};
ghost use Rattle.error.specs.Refusal.{accepted};
ghost use Rattle.scripthash_layout.specs.declared.head.ShHeadValue.TheVariants.{Empty, Slab, Extent};
ghost use Rattle.book_rules.specs.Outcomes.{book_after, answer_of, dropped_of};
ghost use Rattle.book_space.specs.Space.{Space, space, release};
ghost use Rattle.book_keys.specs.Keys.{body_ground, page_blocks};
ghost use Rattle.book.specs.Book.{Book, placing};
ghost use Rattle.book_drop.specs.Drops.{drops};
ghost use Rattle.book.specs.Answers.{book_of};
ghost use Rattle.book_drop.specs.Answers.{drop_answer};
ghost use Rattle.book_drop.specs.Steps.{drops_at, ToDropSlab, ToDrop};
ghost use Rattle.book.specs.Steps.{Does};
ghost use Rattle.book_keys.specs.Steps.{PagesLeft};

use book_desks::DESKS;
use book_keys::ChainEnd;
use error::Refusal;
use scripthash_layout::{SH_PAGE_SLAB_CLASS, ShHeadValue};

// An accepted drop empties the key's head word, whatever the space and the counts are then.
fn accept_drop(heads: &mut [u64], key: usize, count: u64) -> Result<u64, Refusal>
    requires { key < length heads.old }
    ensures { (b : Book) (s : Space) (counts : List ℕ) → b.heads ≡ heads.old
        → Does (accepted (placing (dropped_of count) key Empty s counts b)) b
        (record { heads = heads.new; space = s; counts = counts }) (drop_answer result) }
{
    heads[key] = 0;
    Ok(count)
}

// Gives back the pages of a chain that is sound below some mark, the first first: each page's link is read before the page is written.
fn release_chain(body: &mut [u8], free: &mut [u64; 9], first: u64, pages: u64)
    requires { (mark : ℕ) × (offs : List ℕ) × PagesLeft (body_ground body.old mark) first pages offs }
    ensures { (mark : ℕ) (offs : List ℕ) → PagesLeft (body_ground body.old mark) first pages offs
        → space body.new mark free.new
        ≡ release (page_blocks offs) (space body.old mark free.old) }
{
    let mut off = first;
    for _ in 0..pages {
        let next = book_keys::next_page(body, off);
        book_space::release_block(body, free, SH_PAGE_SLAB_CLASS, off);
        off = next;
    }
}

// Drops a key whose list is in a slab: no count is judged, and none changes.
fn drop_slab(
    body: &mut [u8],
    heads: &mut [u64],
    mark: &mut u64,
    free: &mut [u64; 9],
    key: usize,
    class: u8,
    used: u16,
    off: u64,
) -> Result<u64, Refusal>
    requires { ToDropSlab (space body.old mark.old free.old) heads.old key }
    ensures { (desk : ℕ) (counts : List ℕ) → Does
        (drops_at desk (book_of body.old heads.old mark.old free.old counts) key
        (Slab class used off))
        (book_of body.old heads.old mark.old free.old counts)
        (book_of body.new heads.new mark.new free.new counts) (drop_answer result) }
{
    book_keys::slab_end(body, *mark, class, used, off)?;
    book_space::release_block(body, free, class, off);
    accept_drop(heads, key, u64::from(used))
}

// Drops a key whose list is in pages: the counts are judged before any page is given back.
fn drop_chain(
    body: &mut [u8],
    heads: &mut [u64],
    mark: &mut u64,
    free: &mut [u64; 9],
    counts: &mut [u64; 49],
    desk: u64,
    key: usize,
    last: u64,
) -> Result<u64, Refusal>
    requires { ToDrop desk (book_of body.old heads.old mark.old free.old counts.old) key }
    ensures { Does
        (drops_at desk (book_of body.old heads.old mark.old free.old counts.old) key
        (Extent last))
        (book_of body.old heads.old mark.old free.old counts.old)
        (book_of body.new heads.new mark.new free.new counts.new) (drop_answer result) }
{
    let ChainEnd {
        first,
        length,
        pages,
        ..
    } = book_keys::chain_end(body, *mark, last, false)?;
    book_space::give_back(counts, body.len() as u64, desk, pages)?;
    release_chain(body, free, first, pages);
    accept_drop(heads, key, length)
}

// Drops a key that stands at a place.
fn drop_at(
    body: &mut [u8],
    heads: &mut [u64],
    mark: &mut u64,
    free: &mut [u64; 9],
    counts: &mut [u64; 49],
    desk: u64,
    key: usize,
    place: ShHeadValue,
) -> Result<u64, Refusal>
    requires { ToDrop desk (book_of body.old heads.old mark.old free.old counts.old) key }
    ensures { Does
        (drops_at desk (book_of body.old heads.old mark.old free.old counts.old) key
        place)
        (book_of body.old heads.old mark.old free.old counts.old)
        (book_of body.new heads.new mark.new free.new counts.new) (drop_answer result) }
{
    match place {
        ShHeadValue::Empty => accept_drop(heads, key, 0),
        ShHeadValue::Inline { .. } => accept_drop(heads, key, 1),
        ShHeadValue::Slab { class, used, off } => drop_slab(
            body, heads, mark, free, key, class, used, off,
        ),
        ShHeadValue::Extent { last_page } => drop_chain(
            body, heads, mark, free, counts, desk, key, last_page,
        ),
    }
}

// Drops a key, for a desk: tells how many numbers it had.
pub fn drop(
    body: &mut [u8],
    heads: &mut [u64],
    mark: &mut u64,
    free: &mut [u64; 9],
    counts: &mut [u64; 49],
    desk: u64,
    key: u64,
) -> Result<u64, Refusal>
    ensures answer { drop_answer result
        ≡ answer_of
        (drops desk (book_of body.old heads.old mark.old free.old counts.old) key) }
    ensures book { book_of body.new heads.new mark.new free.new counts.new
        ≡ book_after (book_of body.old heads.old mark.old free.old counts.old)
        (drops desk (book_of body.old heads.old mark.old free.old counts.old) key) }
{
    if book_space::shape_broken(body, heads.len(), *mark) {
        return Err(Refusal::ShapeBad);
    }
    if DESKS as u64 <= desk {
        return Err(Refusal::DesksBad);
    }
    if heads.len() as u64 <= key {
        return Err(Refusal::KeyBeyond);
    }
    let at = key as usize;
    let Ok(place) = scripthash_layout::unpack8(heads[at]) else {
        return Err(Refusal::KeyUnsound);
    };
    drop_at(body, heads, mark, free, counts, desk, at, place)
}
