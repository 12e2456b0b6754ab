// Appending a number to a key, for a desk.
// Sizes and numbers of 64 bits are cast with `as`, since Rust has no From between them: each cast is proved to fit.
ghost use Rattle.std.specs.Prelude.{List, ◌≡◌, ℕ, ◌<◌, length};
ghost use Rattle.error.specs.Refusal.{accepted};
ghost use Rattle.scripthash_layout.specs.declared.head.ShHeadValue.TheVariants.{Inline, Slab, Extent};
ghost use Rattle.book_rules.specs.Outcomes.{book_after, answer_of};
ghost use Rattle.book_space.specs.Space.{Space};
ghost use Rattle.book.specs.Book.{Book};
ghost use Rattle.book_append.specs.Appends.{appending, append_at, appends};
ghost use Rattle.book.specs.Answers.{book_of};
ghost use Rattle.book_append.specs.Answers.{append_answer};
ghost use Rattle.book_append.specs.Steps.{KeyKnown, ToAppend, AppendsAt, AppendsInline, SlabMoves, ChainGrows};
ghost use Rattle.book.specs.Steps.{Does};

use crate::answers::AppendedTo;
use book::{move_list, put_head};
use book_desks::DESKS;
use book_keys::TailEnd;
use compact::uleb128_len;
use error::Refusal;
use scripthash_fields::SH_PAGE_EXTENT_HEADER_LEN;
use scripthash_layout::{SH_PAGE_SIZE, ShHeadValue};
use scripthash_stream::Scanned;

// The most numbers that a list has when it moves.
const MOST_MOVED: usize = 257;

// An accepted append gives the key its new place.
pub fn accept_append(
    heads: &mut [u64],
    key: usize,
    place: ShHeadValue,
    rewritten: u64,
) -> Result<AppendedTo, Refusal>
    requires { key < length heads.old }
    ensures { (b : Book) (s : Space) (counts : List ℕ) → b.heads ≡ heads.old
        → Does (accepted (appending key place rewritten s counts b)) b
        (record { heads = heads.new; space = s; counts = counts }) (append_answer result) }
{
    put_head(heads, key, place);
    Ok(AppendedTo { place, rewritten })
}

// A number behind an inline number: both move to a block.
pub fn append_inline(
    body: &mut [u8],
    heads: &mut [u64],
    mark: &mut u64,
    free: &mut [u64; 9],
    counts: &mut [u64; 49],
    desk: u64,
    key: usize,
    n: u64,
    entry: u64,
) -> Result<AppendedTo, Refusal>
    requires { AppendsInline desk (book_of body.old heads.old mark.old free.old counts.old) key n entry }
    ensures { (used : ℕ) → Does
        (append_at desk (book_of body.old heads.old mark.old free.old counts.old)
        key n (Inline entry used))
        (book_of body.old heads.old mark.old free.old counts.old)
        (book_of body.new heads.new mark.new free.new counts.new) (append_answer result) }
{
    if n <= entry {
        return Err(Refusal::OfferedNotRising);
    }
    let list = [entry, n];
    let place = move_list(body, mark, free, counts, desk, &list)?;
    accept_append(heads, key, place, 1)
}

// A number behind a slab's list moves with it: the list is read, a block is taken and filled, then the slab is given back.
pub fn move_slab(
    body: &mut [u8],
    heads: &mut [u64],
    mark: &mut u64,
    free: &mut [u64; 9],
    counts: &mut [u64; 49],
    desk: u64,
    key: usize,
    n: u64,
    class: u8,
    used: u16,
    off: u64,
) -> Result<AppendedTo, Refusal>
    requires { SlabMoves desk (book_of body.old heads.old mark.old free.old counts.old) key n class used off }
    ensures { Does
        (append_at desk (book_of body.old heads.old mark.old free.old counts.old)
        key n (Slab class used off))
        (book_of body.old heads.old mark.old free.old counts.old)
        (book_of body.new heads.new mark.new free.new counts.new) (append_answer result) }
{
    let mut list = [0; MOST_MOVED];
    book_keys::slab_into(body, class, off, &mut list);
    let held = usize::from(used);
    list[held] = n;
    let place = move_list(body, mark, free, counts, desk, &list[0..held + 1])?;
    book_space::release_block(body, free, class, off);
    accept_append(heads, key, place, u64::from(used))
}

// A number behind a slab's list: it stays in the slab, by the bytes as they are stored, or moves.
fn append_slab(
    body: &mut [u8],
    heads: &mut [u64],
    mark: &mut u64,
    free: &mut [u64; 9],
    counts: &mut [u64; 49],
    desk: u64,
    key: usize,
    n: u64,
    class: u8,
    used: u16,
    off: u64,
) -> Result<AppendedTo, Refusal>
    requires { ToAppend desk (book_of body.old heads.old mark.old free.old counts.old) key n }
    ensures { Does
        (append_at desk (book_of body.old heads.old mark.old free.old counts.old)
        key n (Slab class used off))
        (book_of body.old heads.old mark.old free.old counts.old)
        (book_of body.new heads.new mark.new free.new counts.new) (append_answer result) }
{
    let Scanned { taken, last } = book_keys::slab_end(body, *mark, class, used, off)?;
    if n <= last {
        return Err(Refusal::OfferedNotRising);
    }
    let difference = n - last;
    if book_rules::stays(
        class,
        usize::from(used) + 1,
        taken + uleb128_len(difference),
    ) {
        let size = scripthash_layout::slab_bytes(class) as usize;
        book_blocks::grow_slab(body, off as usize, size, used, taken, difference);
        let place = ShHeadValue::Slab {
            class,
            used: used + 1,
            off,
        };
        return accept_append(heads, key, place, 0);
    }
    move_slab(
        body, heads, mark, free, counts, desk, key, n, class, used, off,
    )
}

// A number in a page more of a chain: the old last page gets it as next, then it is written as the last.
pub fn grow_chain(
    body: &mut [u8],
    heads: &mut [u64],
    mark: &mut u64,
    free: &mut [u64; 9],
    counts: &mut [u64; 49],
    desk: u64,
    key: usize,
    n: u64,
    last: u64,
    first: u64,
    creates: u32,
) -> Result<AppendedTo, Refusal>
    requires { ChainGrows desk (book_of body.old heads.old mark.old free.old counts.old) key n last first creates }
    ensures { Does
        (append_at desk (book_of body.old heads.old mark.old free.old counts.old)
        key n (Extent last))
        (book_of body.old heads.old mark.old free.old counts.old)
        (book_of body.new heads.new mark.new free.new counts.new) (append_answer result) }
{
    let off = book_space::page_for(body, mark, free, counts, desk)?;
    book_blocks::link_page(body, last as usize, off);
    let list = [n];
    let total = book_blocks::total_with(creates);
    book_blocks::put_last_page(body, off as usize, &list, first, off, 1, total);
    accept_append(heads, key, ShHeadValue::Extent { last_page: off }, 0)
}

// A number behind a chain's last page: in that page where it has room, or else in a page more.
fn append_page(
    body: &mut [u8],
    heads: &mut [u64],
    mark: &mut u64,
    free: &mut [u64; 9],
    counts: &mut [u64; 49],
    desk: u64,
    key: usize,
    n: u64,
    last: u64,
) -> Result<AppendedTo, Refusal>
    requires { ToAppend desk (book_of body.old heads.old mark.old free.old counts.old) key n }
    ensures { Does
        (append_at desk (book_of body.old heads.old mark.old free.old counts.old)
        key n (Extent last))
        (book_of body.old heads.old mark.old free.old counts.old)
        (book_of body.new heads.new mark.new free.new counts.new) (append_answer result) }
{
    let TailEnd {
        taken,
        fk,
        first,
        creates,
    } = book_keys::tail_end(body, *mark, last)?;
    if n <= fk {
        return Err(Refusal::OfferedNotRising);
    }
    let difference = n - fk;
    if SH_PAGE_SIZE < SH_PAGE_EXTENT_HEADER_LEN + taken + uleb128_len(difference) {
        return grow_chain(
            body, heads, mark, free, counts, desk, key, n, last, first, creates,
        );
    }
    book_blocks::grow_page(body, last as usize, taken, difference, creates);
    accept_append(heads, key, ShHeadValue::Extent { last_page: last }, 0)
}

// A number behind the list of a key that stands at a place.
fn append_at(
    body: &mut [u8],
    heads: &mut [u64],
    mark: &mut u64,
    free: &mut [u64; 9],
    counts: &mut [u64; 49],
    desk: u64,
    key: usize,
    n: u64,
    place: ShHeadValue,
) -> Result<AppendedTo, Refusal>
    requires { AppendsAt desk (book_of body.old heads.old mark.old free.old counts.old) key n place }
    ensures { Does
        (append_at desk (book_of body.old heads.old mark.old free.old counts.old)
        key n place)
        (book_of body.old heads.old mark.old free.old counts.old)
        (book_of body.new heads.new mark.new free.new counts.new) (append_answer result) }
{
    match place {
        ShHeadValue::Empty => {
            accept_append(heads, key, ShHeadValue::Inline { entry: n, used: 1 }, 0)
        }
        ShHeadValue::Inline { entry, .. } => {
            append_inline(body, heads, mark, free, counts, desk, key, n, entry)
        }
        ShHeadValue::Slab { class, used, off } => {
            append_slab(
                body, heads, mark, free, counts, desk, key, n, class, used, off,
            )
        }
        ShHeadValue::Extent { last_page } => {
            append_page(body, heads, mark, free, counts, desk, key, n, last_page)
        }
    }
}

// Appends a number to a key that is there, for a desk: the number is judged by itself, then the key, then whether the number is above its
// last. It stands apart from `append` for speed: behind all tests in one row the compiler takes the rest for rare, and leaves it a call.
fn append_known(
    body: &mut [u8],
    heads: &mut [u64],
    mark: &mut u64,
    free: &mut [u64; 9],
    counts: &mut [u64; 49],
    desk: u64,
    key: u64,
    n: u64,
) -> Result<AppendedTo, Refusal>
    requires { KeyKnown desk (book_of body.old heads.old mark.old free.old counts.old) key }
    ensures { Does
        (appends desk (book_of body.old heads.old mark.old free.old counts.old) key n)
        (book_of body.old heads.old mark.old free.old counts.old)
        (book_of body.new heads.new mark.new free.new counts.new) (append_answer result) }
{
    book_rules::judge_number(n)?;
    let at = key as usize;
    let Ok(place) = scripthash_layout::unpack8(heads[at]) else {
        return Err(Refusal::KeyUnsound);
    };
    append_at(body, heads, mark, free, counts, desk, at, n, place)
}

// Appends a number to a key, for a desk: the shape, the desk and whether there is such a key are judged before the number.
pub fn append(
    body: &mut [u8],
    heads: &mut [u64],
    mark: &mut u64,
    free: &mut [u64; 9],
    counts: &mut [u64; 49],
    desk: u64,
    key: u64,
    n: u64,
) -> Result<AppendedTo, Refusal>
    ensures answer { append_answer result
        ≡ answer_of (appends desk
        (book_of body.old heads.old mark.old free.old counts.old) key n) }
    ensures book { book_of body.new heads.new mark.new free.new counts.new
        ≡ book_after (book_of body.old heads.old mark.old free.old counts.old)
        (appends desk
        (book_of body.old heads.old mark.old free.old counts.old) key n) }
{
    if book_space::shape_broken(body, heads.len(), *mark) {
        return Err(Refusal::ShapeBad);
    }
    if DESKS as u64 <= desk {
        return Err(Refusal::DesksBad);
    }
    if heads.len() as u64 <= key {
        return Err(Refusal::KeyBeyond);
    }
    append_known(body, heads, mark, free, counts, desk, key, n)
}
