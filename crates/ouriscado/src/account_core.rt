// The core of the account book, as it is lent from outside: its calls are told the desk that makes them, and judge counts only where they
// use them. They are for callers who keep the list of desks where nobody else writes it, and hand on a key's byte.
ghost use Rattle.std.specs.Prelude.{List, ◌≢◌, ◌≡◌, ℕ, length as length_of_list};
ghost use Rattle.error.specs.Refusal.{refusal_of, value_or};
ghost use Rattle.book_rules.specs.Outcomes.{answer_of, book_after};
ghost use Rattle.book_rules.specs.declared.places.SlabFit.TheVariants.{Spare, Tight};
ghost use Rattle.book.specs.Answers.{book_of};
ghost use Rattle.book_load.specs.Loads.{loads};
ghost use Rattle.book_append.specs.Appends.{appends};
ghost use Rattle.book_read.specs.Reads.{reads, list_after};
ghost use Rattle.book_drop.specs.Drops.{drops};
ghost use Rattle.book_read.specs.Answers.{counted_of};
ghost use Rattle.ouriscado.specs.OutHead.{kind_out, class_out, used_out, place_out};
ghost use Rattle.ouriscado.specs.OutBook.{pages_loaded, new_place, records_rewritten, length_dropped};

use crate::answers::hand_out;
use crate::handed::{put_appended, put_listed};
use book_rules::SlabFit;

// Loads a list onto an empty key for a desk, by a rule for its slab. The desk stands before the counts, other than in the exports: two
// arguments that lie side by side there would be copied as one, which waits until both are written.
pub fn core_load_by(
    fit: SlabFit,
    fks: &[u64],
    body: &mut [u8],
    heads: &mut [u64],
    mark: &mut u64,
    free: &mut [u64; 9],
    desk: u64,
    counts: &mut [u64; 49],
    key: u64,
    pages: &mut u64,
) -> u32
    ensures number { result ≡ refusal_of (loads fit desk
        (book_of body.old heads.old mark.old free.old counts.old) key
        fks.now) }
    ensures book { book_of body.new heads.new mark.new free.new counts.new
        ≡ book_after (book_of body.old heads.old mark.old free.old counts.old)
        (loads fit desk (book_of body.old heads.old mark.old free.old counts.old)
        key fks.now) }
    ensures pages { pages.new ≡ value_or pages_loaded (answer_of (loads fit desk
        (book_of body.old heads.old mark.old free.old counts.old) key
        fks.now)) 0 }
    ensures kept { result ≢ 0 → book_of body.new heads.new mark.new free.new counts.new
        ≡ book_of body.old heads.old mark.old free.old counts.old }
{
    // the list as a part, so that the compiler hands its place and length on in registers
    let answer = book_load::load(body, heads, mark, free, counts, desk, fit, key, &fks[0..]);
    hand_out(answer, 0, pages)
}

// Loads a list of record numbers onto an empty key as ouriscado_book_load does, for the desk of a number: 39 above 15. The counts are
// judged where blocks are taken, behind 36. Refuses 1 to 3, 10, 12 to 14, 32, 35, 36, 39 to 42.
#[unsafe(no_mangle)]
pub extern "C" fn ouriscado_core_load(
    body: &mut [u8],
    heads: &mut [u64],
    mark: &mut u64,
    free: &mut [u64; 9],
    counts: &mut [u64; 49],
    desk: u64,
    key: u64,
    fks: &[u64],
    pages: &mut u64,
) -> u32
    ensures number { result ≡ refusal_of (loads Spare desk
        (book_of body.old heads.old mark.old free.old counts.old) key
        fks.now) }
    ensures book { book_of body.new heads.new mark.new free.new counts.new
        ≡ book_after (book_of body.old heads.old mark.old free.old counts.old)
        (loads Spare desk
        (book_of body.old heads.old mark.old free.old counts.old) key
        fks.now) }
    ensures pages { pages.new ≡ value_or pages_loaded (answer_of (loads Spare desk
        (book_of body.old heads.old mark.old free.old counts.old) key
        fks.now)) 0 }
    ensures kept { result ≢ 0 → book_of body.new heads.new mark.new free.new counts.new
        ≡ book_of body.old heads.old mark.old free.old counts.old }
{
    core_load_by(
        SlabFit::Spare,
        fks,
        body,
        heads,
        mark,
        free,
        desk,
        counts,
        key,
        pages,
    )
}

// Loads a list of record numbers onto an empty key as ouriscado_book_load_tight does, for the desk of a number: 39 above 15. The counts are
// judged where blocks are taken, behind 36. Refuses 1 to 3, 10, 12 to 14, 32, 35, 36, 39 to 42.
#[unsafe(no_mangle)]
pub extern "C" fn ouriscado_core_load_tight(
    body: &mut [u8],
    heads: &mut [u64],
    mark: &mut u64,
    free: &mut [u64; 9],
    counts: &mut [u64; 49],
    desk: u64,
    key: u64,
    fks: &[u64],
    pages: &mut u64,
) -> u32
    ensures number { result ≡ refusal_of (loads Tight desk
        (book_of body.old heads.old mark.old free.old counts.old) key
        fks.now) }
    ensures book { book_of body.new heads.new mark.new free.new counts.new
        ≡ book_after (book_of body.old heads.old mark.old free.old counts.old)
        (loads Tight desk
        (book_of body.old heads.old mark.old free.old counts.old) key
        fks.now) }
    ensures pages { pages.new ≡ value_or pages_loaded (answer_of (loads Tight desk
        (book_of body.old heads.old mark.old free.old counts.old) key
        fks.now)) 0 }
    ensures kept { result ≢ 0 → book_of body.new heads.new mark.new free.new counts.new
        ≡ book_of body.old heads.old mark.old free.old counts.old }
{
    core_load_by(
        SlabFit::Tight,
        fks,
        body,
        heads,
        mark,
        free,
        desk,
        counts,
        key,
        pages,
    )
}

// Appends a record number to the list of a key as ouriscado_book_append does, for the desk of a number: 39 above 15. The counts are judged
// where blocks are taken, behind 36. Refuses 1, 2, 12 to 14, 31, 32, 35, 36, 39 to 41.
#[unsafe(no_mangle)]
pub extern "C" fn ouriscado_core_append(
    body: &mut [u8],
    heads: &mut [u64],
    mark: &mut u64,
    free: &mut [u64; 9],
    counts: &mut [u64; 49],
    desk: u64,
    key: u64,
    fk: u64,
    kind: &mut u8,
    class: &mut u8,
    used: &mut u16,
    place: &mut u64,
    rewritten: &mut u64,
) -> u32
    ensures number { result ≡ refusal_of (appends desk
        (book_of body.old heads.old mark.old free.old counts.old) key fk) }
    ensures book { book_of body.new heads.new mark.new free.new counts.new
        ≡ book_after (book_of body.old heads.old mark.old free.old counts.old)
        (appends desk
        (book_of body.old heads.old mark.old free.old counts.old) key fk) }
    ensures kind { kind.new ≡ value_or (λ t. kind_out (new_place t)) (answer_of (appends desk
        (book_of body.old heads.old mark.old free.old counts.old) key fk)) 0 }
    ensures class { class.new ≡ value_or (λ t. class_out (new_place t)) (answer_of (appends desk
        (book_of body.old heads.old mark.old free.old counts.old) key fk)) 0 }
    ensures used { used.new ≡ value_or (λ t. used_out (new_place t)) (answer_of (appends desk
        (book_of body.old heads.old mark.old free.old counts.old) key fk)) 0 }
    ensures place { place.new ≡ value_or (λ t. place_out (new_place t)) (answer_of (appends desk
        (book_of body.old heads.old mark.old free.old counts.old) key fk)) 0 }
    ensures rewritten { rewritten.new ≡ value_or records_rewritten (answer_of (appends desk
        (book_of body.old heads.old mark.old free.old counts.old) key fk)) 0 }
    ensures kept { result ≢ 0 → book_of body.new heads.new mark.new free.new counts.new
        ≡ book_of body.old heads.old mark.old free.old counts.old }
{
    let answer = book_append::append(body, heads, mark, free, counts, desk, key, fk);
    put_appended(answer, kind, class, used, place, rewritten)
}

// Reads the list of a key into the start of out as ouriscado_book_read does; it is lent neither counts nor desks. Refuses 1, 2, 31, 34.
#[unsafe(no_mangle)]
pub extern "C" fn ouriscado_core_read(
    body: &[u8],
    heads: &[u64],
    mark: u64,
    key: u64,
    out: &mut [u64],
    length: &mut u64,
    pages: &mut u64,
    padded: &mut u64,
) -> u32
    ensures number { (free counts : List ℕ) → result ≡ refusal_of (reads
        (book_of body.now heads.now mark free counts) key (length_of_list out.old)) }
    ensures list { (free counts : List ℕ) → out.new
        ≡ list_after out.old (reads (book_of body.now heads.now mark free counts) key
        (length_of_list out.old)) }
    ensures length { (free counts : List ℕ) → length.new
        ≡ value_or (λ t. (counted_of t).length) (reads (book_of body.now heads.now mark free counts) key
        (length_of_list out.old)) 0 }
    ensures pages { (free counts : List ℕ) → pages.new
        ≡ value_or (λ t. (counted_of t).pages) (reads (book_of body.now heads.now mark free counts) key
        (length_of_list out.old)) 0 }
    ensures padded { (free counts : List ℕ) → padded.new
        ≡ value_or (λ t. (counted_of t).padded) (reads (book_of body.now heads.now mark free counts) key
        (length_of_list out.old)) 0 }
    ensures kept { result ≢ 0 → out.new ≡ out.old }
{
    // both as parts, so that the compiler hands places and lengths on in registers
    let answer = book_read::read(&body[0..], &heads[0..], mark, key, out);
    put_listed(answer, length, pages, padded)
}

// Drops the list of a key as ouriscado_book_drop does, for the desk of a number: 39 above 15. The counts are judged where the list has
// pages. Refuses 1, 2, 31, 39.
#[unsafe(no_mangle)]
pub extern "C" fn ouriscado_core_drop(
    body: &mut [u8],
    heads: &mut [u64],
    mark: &mut u64,
    free: &mut [u64; 9],
    counts: &mut [u64; 49],
    desk: u64,
    key: u64,
    length: &mut u64,
) -> u32
    ensures number { result ≡ refusal_of (drops desk
        (book_of body.old heads.old mark.old free.old counts.old) key) }
    ensures book { book_of body.new heads.new mark.new free.new counts.new
        ≡ book_after (book_of body.old heads.old mark.old free.old counts.old)
        (drops desk (book_of body.old heads.old mark.old free.old counts.old) key) }
    ensures length { length.new ≡ value_or length_dropped (answer_of (drops desk
        (book_of body.old heads.old mark.old free.old counts.old) key)) 0 }
    ensures kept { result ≢ 0 → book_of body.new heads.new mark.new free.new counts.new
        ≡ book_of body.old heads.old mark.old free.old counts.old }
{
    let answer = book_drop::drop(body, heads, mark, free, counts, desk, key);
    hand_out(answer, 0, length)
}
