// The account book, as it is lent from outside: a body of bytes, a head word for each key, its state, which is the mark, nine free heads
// and 49 counts, and the list that names each key's desk.
ghost use Rattle.std.specs.Prelude.{List, ◌≢◌, ◌≡◌, ℕ, ◌/◌, length as length_of_list};
ghost use Rattle.error.specs.Refusal.{refusal_of, value_or};
ghost use Rattle.book_rules.specs.Outcomes.{answer_of, book_after};
ghost use Rattle.book_rules.specs.declared.places.SlabFit.TheVariants.{Spare, Tight};
ghost use Rattle.book_desks.specs.Desks.{desk_of};
ghost use Rattle.book.specs.Answers.{book_of};
ghost use Rattle.book_start.specs.Making.{makes_fresh, made_after};
ghost use Rattle.book_load.specs.Loads.{loads_with};
ghost use Rattle.book_append.specs.Appends.{appends_with};
ghost use Rattle.book_read.specs.Reads.{reads_with, list_after};
ghost use Rattle.book_drop.specs.Drops.{drops_with};
ghost use Rattle.book_read.specs.Answers.{counted_of};
ghost use Rattle.book_start.specs.Start.{judges};
ghost use Rattle.book_start.specs.Units.{work_after};
ghost use Rattle.book_start.specs.Answers.{ground_of, which_of, lost_of};
ghost use Rattle.ouriscado.specs.OutHead.{kind_out, class_out, used_out, place_out};
ghost use Rattle.ouriscado.specs.OutBook.{pages_loaded, new_place, records_rewritten, length_dropped};

use crate::account_core::{
    core_load_by, ouriscado_core_append, ouriscado_core_drop, ouriscado_core_read,
};
use crate::answers::{hand_out, number};
use crate::handed::{put_appended, put_listed};
use book_desks::desk_of;
use book_rules::SlabFit;

// Makes a fresh book, in which every key is empty: all heads become 0, and mark, free and counts those of a book from which nothing was
// taken; the body isn't written. A book is these: a body, whose length is a multiple of 4,096 bytes from 8,192 to 2^41; heads, a word for
// each key, 1 to 65,536 of them; its state, which is the mark up to which the body was ever used, free, the first freed block of each of
// nine sizes, and counts; and desks, a byte for each key, the number of its desk, 0 to 15. counts are 49 words: how many pages of 4,096
// bytes are freed, and then of each of the 16 desks the pages that it holds, its reserve and its ceiling. Of each desk reserve has the
// pages that are kept for it, and ceiling the most that it gets. A book without desks has bytes and reserves of 0, and ceilings of
// 2^64 - 1. What heads, mark, free and counts held before doesn't matter. Refuses 1, also where a reserve is above the body's pages, and
// 39, also where the reserves are, summed, more than the pages to be had, which are all but the first, or singly more than their own
// ceilings.
#[unsafe(no_mangle)]
pub extern "C" fn ouriscado_book_fresh(
    body: &[u8],
    heads: &mut [u64],
    mark: &mut u64,
    free: &mut [u64; 9],
    counts: &mut [u64; 49],
    desks: &[u8],
    reserve: &[u64; 16],
    ceiling: &[u64; 16],
) -> u32
    ensures number { result ≡ refusal_of (makes_fresh desks.now
        (record { reserve = reserve.now; ceiling = ceiling.now })
        (book_of body.now heads.old mark.old free.old counts.old)) }
    ensures book { book_of body.now heads.new mark.new free.new counts.new
        ≡ made_after
        (book_of body.now heads.old mark.old free.old counts.old)
        (makes_fresh desks.now (record { reserve = reserve.now; ceiling = ceiling.now })
        (book_of body.now heads.old mark.old free.old counts.old)) }
    ensures kept { result ≢ 0 → book_of body.now heads.new mark.new free.new counts.new
        ≡ book_of body.now heads.old mark.old free.old counts.old }
{
    number(book_start::fresh(body, heads, mark, free, counts, desks, reserve, ceiling))
}

// Loads a list onto an empty key for its desk, by a rule for its slab.
fn load_by(
    fit: SlabFit,
    fks: &[u64],
    body: &mut [u8],
    heads: &mut [u64],
    mark: &mut u64,
    free: &mut [u64; 9],
    counts: &mut [u64; 49],
    desks: &[u8],
    key: u64,
    pages: &mut u64,
) -> u32
    ensures number { result ≡ refusal_of (loads_with fit desks.now
        (book_of body.old heads.old mark.old free.old counts.old) key
        fks.now) }
    ensures book { book_of body.new heads.new mark.new free.new counts.new
        ≡ book_after
        (book_of body.old heads.old mark.old free.old counts.old)
        (loads_with fit desks.now
        (book_of body.old heads.old mark.old free.old counts.old) key
        fks.now) }
    ensures pages { pages.new ≡ value_or pages_loaded (answer_of (loads_with fit desks.now
        (book_of body.old heads.old mark.old free.old counts.old) key
        fks.now)) 0 }
    ensures kept { result ≢ 0 → book_of body.new heads.new mark.new free.new counts.new
        ≡ book_of body.old heads.old mark.old free.old counts.old }
{
    if let Err(refusal) = book::judge_call(body, heads.len(), *mark, counts, desks) {
        return hand_out(Err(refusal), 0, pages);
    }
    let desk = desk_of(desks, key);
    core_load_by(fit, fks, body, heads, mark, free, desk, counts, key, pages)
}

// Loads a list of record numbers onto an empty key; keys count from 0. The numbers rise strictly, from 1 to 2^62 - 1, and there are
// 65,535 at most; with none, nothing changes. A list of 2 to 255 that goes to a slab has a slot for one number more there, so that the next
// append moves it only where its bytes don't fit. Hands out pages: how many pages of 4,096 bytes hold the list, 0 where it needs none.
// Refuses 1 to 3, 10, 12 to 14, 32, 35, 36, 39 to 42.
#[unsafe(no_mangle)]
pub extern "C" fn ouriscado_book_load(
    body: &mut [u8],
    heads: &mut [u64],
    mark: &mut u64,
    free: &mut [u64; 9],
    counts: &mut [u64; 49],
    desks: &[u8],
    key: u64,
    fks: &[u64],
    pages: &mut u64,
) -> u32
    ensures number { result ≡ refusal_of (loads_with Spare desks.now
        (book_of body.old heads.old mark.old free.old counts.old) key
        fks.now) }
    ensures book { book_of body.new heads.new mark.new free.new counts.new
        ≡ book_after
        (book_of body.old heads.old mark.old free.old counts.old)
        (loads_with Spare desks.now
        (book_of body.old heads.old mark.old free.old counts.old) key
        fks.now) }
    ensures pages { pages.new ≡ value_or pages_loaded (answer_of (loads_with Spare desks.now
        (book_of body.old heads.old mark.old free.old counts.old) key
        fks.now)) 0 }
    ensures kept { result ≢ 0 → book_of body.new heads.new mark.new free.new counts.new
        ≡ book_of body.old heads.old mark.old free.old counts.old }
{
    load_by(
        SlabFit::Spare,
        fks,
        body,
        heads,
        mark,
        free,
        counts,
        desks,
        key,
        pages,
    )
}

// Loads a list of record numbers onto an empty key as ouriscado_book_load does, but tight: into the smallest slab that holds its bytes, for
// lists that nothing is appended to. Hands out pages as that does. Refuses 1 to 3, 10, 12 to 14, 32, 35, 36, 39 to 42.
#[unsafe(no_mangle)]
pub extern "C" fn ouriscado_book_load_tight(
    body: &mut [u8],
    heads: &mut [u64],
    mark: &mut u64,
    free: &mut [u64; 9],
    counts: &mut [u64; 49],
    desks: &[u8],
    key: u64,
    fks: &[u64],
    pages: &mut u64,
) -> u32
    ensures number { result ≡ refusal_of (loads_with Tight desks.now
        (book_of body.old heads.old mark.old free.old counts.old) key
        fks.now) }
    ensures book { book_of body.new heads.new mark.new free.new counts.new
        ≡ book_after
        (book_of body.old heads.old mark.old free.old counts.old)
        (loads_with Tight desks.now
        (book_of body.old heads.old mark.old free.old counts.old) key
        fks.now) }
    ensures pages { pages.new ≡ value_or pages_loaded (answer_of (loads_with Tight desks.now
        (book_of body.old heads.old mark.old free.old counts.old) key
        fks.now)) 0 }
    ensures kept { result ≢ 0 → book_of body.new heads.new mark.new free.new counts.new
        ≡ book_of body.old heads.old mark.old free.old counts.old }
{
    load_by(
        SlabFit::Tight,
        fks,
        body,
        heads,
        mark,
        free,
        counts,
        desks,
        key,
        pages,
    )
}

// Appends a record number to the list of a key: a number from 1 to 2^62 - 1, above the last of the list. Hands out where the list now
// stands: kind is 1 where its only number stands in the head word, 2 for a slab, 3 for pages; class is the slab's, else 0; used is how
// many numbers head word or slab hold, 0 for pages; place is the number itself, or the offset in the body, in bytes, of the slab or of
// the last page. Hands out rewritten: how many numbers a move of the list wrote anew, 0 where it stayed. Refuses 1, 2, 12 to 14, 31, 32,
// 35, 36, 39 to 41.
#[unsafe(no_mangle)]
pub extern "C" fn ouriscado_book_append(
    body: &mut [u8],
    heads: &mut [u64],
    mark: &mut u64,
    free: &mut [u64; 9],
    counts: &mut [u64; 49],
    desks: &[u8],
    key: u64,
    fk: u64,
    kind: &mut u8,
    class: &mut u8,
    used: &mut u16,
    place: &mut u64,
    rewritten: &mut u64,
) -> u32
    ensures number { result ≡ refusal_of (appends_with desks.now
        (book_of body.old heads.old mark.old free.old counts.old) key fk) }
    ensures book { book_of body.new heads.new mark.new free.new counts.new
        ≡ book_after
        (book_of body.old heads.old mark.old free.old counts.old)
        (appends_with desks.now
        (book_of body.old heads.old mark.old free.old counts.old) key fk) }
    ensures kind { kind.new ≡ value_or (λ t. kind_out (new_place t)) (answer_of (appends_with desks.now
        (book_of body.old heads.old mark.old free.old counts.old) key fk)) 0 }
    ensures class { class.new ≡ value_or (λ t. class_out (new_place t)) (answer_of (appends_with desks.now
        (book_of body.old heads.old mark.old free.old counts.old) key fk)) 0 }
    ensures used { used.new ≡ value_or (λ t. used_out (new_place t)) (answer_of (appends_with desks.now
        (book_of body.old heads.old mark.old free.old counts.old) key fk)) 0 }
    ensures place { place.new ≡ value_or (λ t. place_out (new_place t)) (answer_of (appends_with desks.now
        (book_of body.old heads.old mark.old free.old counts.old) key fk)) 0 }
    ensures rewritten { rewritten.new ≡ value_or records_rewritten (answer_of (appends_with desks.now
        (book_of body.old heads.old mark.old free.old counts.old) key fk)) 0 }
    ensures kept { result ≢ 0 → book_of body.new heads.new mark.new free.new counts.new
        ≡ book_of body.old heads.old mark.old free.old counts.old }
{
    if let Err(refusal) = book::judge_call(body, heads.len(), *mark, counts, desks) {
        return put_appended(Err(refusal), kind, class, used, place, rewritten);
    }
    let desk = desk_of(desks, key);
    ouriscado_core_append(
        body, heads, mark, free, counts, desk, key, fk, kind, class, used, place, rewritten,
    )
}

// Reads the list of a key into the start of out; what stands behind it there stays. Hands out length, how many record numbers the list
// has, pages, how many pages of 4,096 bytes were walked, and padded, how many of the numbers are stored in a longer form than the shortest:
// 0 of a key that this book's own calls filled. A read that is accepted with length 0 means that nothing is recorded for the key; of one
// that is refused length is 0 too, and says nothing of the key. Refuses 1, 2, 31, 34, 39.
#[unsafe(no_mangle)]
pub extern "C" fn ouriscado_book_read(
    body: &[u8],
    heads: &[u64],
    mark: u64,
    counts: &[u64; 49],
    desks: &[u8],
    key: u64,
    out: &mut [u64],
    length: &mut u64,
    pages: &mut u64,
    padded: &mut u64,
) -> u32
    ensures number { (free : List ℕ) → result ≡ refusal_of (reads_with desks.now
        (book_of body.now heads.now mark free counts.now) key (length_of_list out.old)) }
    ensures list { (free : List ℕ) → out.new
        ≡ list_after out.old (reads_with desks.now
        (book_of body.now heads.now mark free counts.now) key (length_of_list out.old)) }
    ensures length { (free : List ℕ) → length.new
        ≡ value_or (λ t. (counted_of t).length) (reads_with desks.now
        (book_of body.now heads.now mark free counts.now) key (length_of_list out.old)) 0 }
    ensures pages { (free : List ℕ) → pages.new
        ≡ value_or (λ t. (counted_of t).pages) (reads_with desks.now
        (book_of body.now heads.now mark free counts.now) key (length_of_list out.old)) 0 }
    ensures padded { (free : List ℕ) → padded.new
        ≡ value_or (λ t. (counted_of t).padded) (reads_with desks.now
        (book_of body.now heads.now mark free counts.now) key (length_of_list out.old)) 0 }
    ensures kept { result ≢ 0 → out.new ≡ out.old }
{
    if let Err(refusal) = book::judge_call(body, heads.len(), mark, counts, desks) {
        return put_listed(Err(refusal), length, pages, padded);
    }
    ouriscado_core_read(body, heads, mark, key, out, length, pages, padded)
}

// Drops the list of a key: the key is empty then, and the book can use the list's slab or pages again. Hands out length, how many record
// numbers the list had. Refuses 1, 2, 31, also where the list has more pages than its desk holds, and 39.
#[unsafe(no_mangle)]
pub extern "C" fn ouriscado_book_drop(
    body: &mut [u8],
    heads: &mut [u64],
    mark: &mut u64,
    free: &mut [u64; 9],
    counts: &mut [u64; 49],
    desks: &[u8],
    key: u64,
    length: &mut u64,
) -> u32
    ensures number { result ≡ refusal_of (drops_with desks.now
        (book_of body.old heads.old mark.old free.old counts.old) key) }
    ensures book { book_of body.new heads.new mark.new free.new counts.new
        ≡ book_after
        (book_of body.old heads.old mark.old free.old counts.old)
        (drops_with desks.now
        (book_of body.old heads.old mark.old free.old counts.old) key) }
    ensures length { length.new ≡ value_or length_dropped (answer_of (drops_with desks.now
        (book_of body.old heads.old mark.old free.old counts.old) key)) 0 }
    ensures kept { result ≢ 0 → book_of body.new heads.new mark.new free.new counts.new
        ≡ book_of body.old heads.old mark.old free.old counts.old }
{
    if let Err(refusal) = book::judge_call(body, heads.len(), *mark, counts, desks) {
        return hand_out(Err(refusal), 0, length);
    }
    let desk = desk_of(desks, key);
    ouriscado_core_drop(body, heads, mark, free, counts, desk, key, length)
}

// Tells whether a body, heads and state that come from elsewhere, as from a file, are a good start, with which the other calls may go on
// as with a book that began fresh: every key is sound; for each of the nine sizes of block the list of freed ones ends, and names only
// offsets where such a block can stand; no two blocks, in use or freed, share a byte; and the counts are true, no desk holds more than
// its ceiling and no reserve is above it, and the pages to be had cover what desks lack of their reserves. work is for the call's own
// use: a byte for each 128 bytes of the body, which may hold anything, and are 0 afterwards; what stands behind them stays. Nothing else
// is written. Hands out fault: 0 for a good start, else why it isn't one; and which: the key where the first fault was met, the class of
// the free list, or the desk, since keys are judged first, from 0 on, then free lists, from class 0 on, and then counts; 0 for a good
// start, and where the fault has none of these. Hands out lost beside a good start: how many units of 16 bytes, from byte 4,096 up to the
// mark, belong to no key and to no list of freed blocks; 0 where it isn't a good start. It is 0 in a book that began with
// ouriscado_book_fresh, and no call changes it, save that a start whose mark lies past 2^40 within a page loses the rest of that page
// with the next one that is taken. A head word that was lost, so that its key reads as empty, shows by the units of its slab, and that of
// a key with pages by its desk's count; the head of a list of freed slabs shows by their units, and that of freed pages by their count.
// The head word of a key with one record number takes no block, and its loss can't show: 0 doesn't say that no word was lost. The files
// of other software may have such units: lost is a figure, no fault. Refuses 1, 34, 39.
#[unsafe(no_mangle)]
pub extern "C" fn ouriscado_book_check(
    body: &[u8],
    heads: &[u64],
    mark: u64,
    free: &[u64; 9],
    counts: &[u64; 49],
    desks: &[u8],
    work: &mut [u8],
    fault: &mut u32,
    which: &mut u64,
    lost: &mut u64,
) -> u32
    ensures number { result ≡ refusal_of (judges desks.now
        (book_of body.now heads.now mark free.now counts.now)
        (length_of_list work.old)) }
    ensures list { work.new
        ≡ work_after (length_of_list body.now / 128) work.old (judges desks.now
        (book_of body.now heads.now mark free.now counts.now)
        (length_of_list work.old)) }
    ensures fault { fault.new ≡ value_or ground_of (judges desks.now
        (book_of body.now heads.now mark free.now counts.now)
        (length_of_list work.old)) 0 }
    ensures which { which.new ≡ value_or which_of (judges desks.now
        (book_of body.now heads.now mark free.now counts.now)
        (length_of_list work.old)) 0 }
    ensures lost { lost.new ≡ value_or lost_of (judges desks.now
        (book_of body.now heads.now mark free.now counts.now)
        (length_of_list work.old)) 0 }
    ensures kept { result ≢ 0 → work.new ≡ work.old }
{
    match book_start::judge_start(body, heads, mark, *free, counts, desks, work) {
        Ok(verdict) => {
            *fault = verdict.ground();
            *which = verdict.which();
            *lost = verdict.lost();
            0
        }
        Err(refusal) => {
            *fault = 0;
            *which = 0;
            *lost = 0;
            u32::from(refusal)
        }
    }
}
