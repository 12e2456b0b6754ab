// A list written anew, for a desk: to a taken slab, or to a taken page.
// Sizes and numbers of 64 bits are cast with `as`, since Rust has no From between them: each cast is proved to fit.
ghost use Rattle.std.specs.Prelude.{◌≡◌, ◌^◌, ◌≤◌, length};
ghost use Rattle.std.proofs.Math.Option.{none, some};
ghost use Rattle.scripthash_stream.specs.Stream.{Rising, stream_len};
ghost use Rattle.book_rules.specs.Places.{moves_to};
ghost use Rattle.book_space.specs.Space.{space};
ghost use Rattle.book.specs.Steps.{places_into, place_answer, ToPlaceInSlab, ToPlaceInPage, ToMove, Places};

use error::Refusal;
use scripthash_layout::ShHeadValue;

// Writes a list to a slab of a class, taken for a desk, that has bytes for its payload.
pub fn place_in_slab(
    body: &mut [u8],
    mark: &mut u64,
    free: &mut [u64; 9],
    counts: &[u64; 49],
    desk: u64,
    fks: &[u64],
    class: u8,
) -> Result<ShHeadValue, Refusal>
    requires { ToPlaceInSlab (space body.old mark.old free.old) desk fks.now class }
    ensures { Places
        (places_into desk (space body.old mark.old free.old) counts.now fks.now
        (some class))
        (space body.old mark.old free.old) counts.now
        (space body.new mark.new free.new) counts.now (place_answer result) }
{
    let off = book_space::slab_for(body, mark, free, counts, desk, class)?;
    let size = scripthash_layout::slab_bytes(class) as usize;
    book_blocks::put_slab(body, off as usize, size, fks);
    let used = fks.len() as u16;
    Ok(ShHeadValue::Slab { class, used, off })
}

// Writes a list to a page, taken for a desk, the only one of its key.
fn place_in_page(
    body: &mut [u8],
    mark: &mut u64,
    free: &mut [u64; 9],
    counts: &mut [u64; 49],
    desk: u64,
    fks: &[u64],
) -> Result<ShHeadValue, Refusal>
    requires { ToPlaceInPage (space body.old mark.old free.old) desk fks.now }
    ensures { Places
        (places_into desk (space body.old mark.old free.old) counts.old fks.now none)
        (space body.old mark.old free.old) counts.old
        (space body.new mark.new free.new) counts.new (place_answer result) }
{
    let off = book_space::page_for(body, mark, free, counts, desk)?;
    let count = fks.len() as u32;
    book_blocks::put_last_page(body, off as usize, fks, off, off, 1, count);
    Ok(ShHeadValue::Extent { last_page: off })
}

// Writes a list of 2 to 257 numbers to where lists move: a slab of the class for it, or else a page, taken for a desk.
pub fn move_list(
    body: &mut [u8],
    mark: &mut u64,
    free: &mut [u64; 9],
    counts: &mut [u64; 49],
    desk: u64,
    fks: &[u64],
) -> Result<ShHeadValue, Refusal>
    requires { ToMove (space body.old mark.old free.old) desk fks.now }
    ensures { Places
        (places_into desk (space body.old mark.old free.old) counts.old fks.now
        (moves_to (length fks.now) (stream_len fks.now)))
        (space body.old mark.old free.old) counts.old
        (space body.new mark.new free.new) counts.new (place_answer result) }
{
    // as a part, so that the compiler hands its place and length on in registers
    let list = &fks[0..];
    let bytes = compact_len(list);
    match book_rules::moves_to(list.len(), bytes) {
        Some(class) => place_in_slab(body, mark, free, counts, desk, list, class),
        None => place_in_page(body, mark, free, counts, desk, list),
    }
}

// The length of a rising list's stream, in shortest forms.
fn compact_len(fks: &[u64]) -> usize
    requires { (length fks.now ≤ 257) × Rising (2 ^ 62) 0 fks.now }
    ensures { result ≡ stream_len fks.now }
{
    book_rules::judge_list(fks).unwrap_or(0)
}
