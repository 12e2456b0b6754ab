// Appends of numbers that don't stay where their key stands: the list moves, a chain gets a page more, or the number is refused. They stand
// apart from `book_append::append` for speed: a second caller would take that one out of line, and each single append would pay for it.
// Sizes and numbers of 64 bits are cast with `as`, since Rust has no From between them: each cast is proved to fit.
ghost use Rattle.scripthash_layout.specs.declared.head.ShHeadValue.TheVariants.{Slab, Extent};
ghost use Rattle.book.specs.Answers.{book_of};
ghost use Rattle.book.specs.Steps.{Does};
ghost use Rattle.book_append.specs.Appends.{append_at, appends};
ghost use Rattle.book_append.specs.Answers.{append_answer};
ghost use Rattle.book_extend.specs.Steps.{PastAt, Past};

use book_append::{AppendedTo, accept_append, append_inline, grow_chain, move_slab};
use book_keys::TailEnd;
use error::Refusal;
use scripthash_layout::ShHeadValue;
use scripthash_stream::Scanned;

// A number behind a slab's list that doesn't stay there.
fn slab_past(
    body: &mut [u8],
    heads: &mut [u64],
    mark: &mut u64,
    free: &mut [u64; 9],
    counts: &mut [u64; 49],
    desk: u64,
    key: usize,
    n: u64,
    class: u8,
    used: u16,
    off: u64,
) -> Result<AppendedTo, Refusal>
    requires { PastAt desk (book_of body.old heads.old mark.old free.old counts.old) key n (Slab class used off) }
    ensures { Does
        (append_at desk (book_of body.old heads.old mark.old free.old counts.old)
        key n (Slab class used off))
        (book_of body.old heads.old mark.old free.old counts.old)
        (book_of body.new heads.new mark.new free.new counts.new) (append_answer result) }
{
    let Scanned { last, .. } = book_keys::slab_end(body, *mark, class, used, off)?;
    if n <= last {
        return Err(Refusal::OfferedNotRising);
    }
    move_slab(
        body, heads, mark, free, counts, desk, key, n, class, used, off,
    )
}

// A number behind a chain's last page that has no spot there.
fn page_past(
    body: &mut [u8],
    heads: &mut [u64],
    mark: &mut u64,
    free: &mut [u64; 9],
    counts: &mut [u64; 49],
    desk: u64,
    key: usize,
    n: u64,
    last: u64,
) -> Result<AppendedTo, Refusal>
    requires { PastAt desk (book_of body.old heads.old mark.old free.old counts.old) key n (Extent last) }
    ensures { Does
        (append_at desk (book_of body.old heads.old mark.old free.old counts.old)
        key n (Extent last))
        (book_of body.old heads.old mark.old free.old counts.old)
        (book_of body.new heads.new mark.new free.new counts.new) (append_answer result) }
{
    let TailEnd {
        fk,
        first,
        creates,
        ..
    } = book_keys::tail_end(body, *mark, last)?;
    if n <= fk {
        return Err(Refusal::OfferedNotRising);
    }
    grow_chain(
        body, heads, mark, free, counts, desk, key, n, last, first, creates,
    )
}

// A number behind the list of a key that stands at a place, where it doesn't stay.
fn append_past_at(
    body: &mut [u8],
    heads: &mut [u64],
    mark: &mut u64,
    free: &mut [u64; 9],
    counts: &mut [u64; 49],
    desk: u64,
    key: usize,
    n: u64,
    place: ShHeadValue,
) -> Result<AppendedTo, Refusal>
    requires { PastAt desk (book_of body.old heads.old mark.old free.old counts.old) key n place }
    ensures { Does
        (append_at desk (book_of body.old heads.old mark.old free.old counts.old)
        key n place)
        (book_of body.old heads.old mark.old free.old counts.old)
        (book_of body.new heads.new mark.new free.new counts.new) (append_answer result) }
{
    match place {
        ShHeadValue::Empty => {
            accept_append(heads, key, ShHeadValue::Inline { entry: n, used: 1 }, 0)
        }
        ShHeadValue::Inline { entry, .. } => {
            append_inline(body, heads, mark, free, counts, desk, key, n, entry)
        }
        ShHeadValue::Slab { class, used, off } => {
            slab_past(
                body, heads, mark, free, counts, desk, key, n, class, used, off,
            )
        }
        ShHeadValue::Extent { last_page } => {
            page_past(body, heads, mark, free, counts, desk, key, n, last_page)
        }
    }
}

// Appends a number to a key that is there, where it doesn't stay in the key's block: the shape is judged, then the number by itself, and
// then the key.
pub fn append_past(
    body: &mut [u8],
    heads: &mut [u64],
    mark: &mut u64,
    free: &mut [u64; 9],
    counts: &mut [u64; 49],
    desk: u64,
    key: u64,
    n: u64,
) -> Result<AppendedTo, Refusal>
    requires { Past desk (book_of body.old heads.old mark.old free.old counts.old) key n }
    ensures { Does
        (appends desk (book_of body.old heads.old mark.old free.old counts.old) key n)
        (book_of body.old heads.old mark.old free.old counts.old)
        (book_of body.new heads.new mark.new free.new counts.new) (append_answer result) }
{
    if book_space::shape_broken(body, heads.len(), *mark) {
        return Err(Refusal::ShapeBad);
    }
    book_rules::judge_number(n)?;
    let at = key as usize;
    let Ok(place) = scripthash_layout::unpack8(heads[at]) else {
        return Err(Refusal::KeyUnsound);
    };
    append_past_at(body, heads, mark, free, counts, desk, at, n, place)
}
