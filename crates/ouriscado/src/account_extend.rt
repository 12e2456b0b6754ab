// Many numbers behind the list of a key of the account book, in one call.
ghost use Rattle.std.specs.Prelude.{◌≢◌, ◌≡◌};
ghost use Rattle.error.specs.Refusal.{refusal_of, value_or};
ghost use Rattle.book_rules.specs.Outcomes.{answer_of, book_after};
ghost use Rattle.book.specs.Answers.{book_of};
ghost use Rattle.book_extend.specs.Extends.{extends, extends_with};
ghost use Rattle.book_extend.specs.Answers.{extend_answer};
ghost use Rattle.ouriscado.specs.OutHead.{kind_out, class_out, used_out, place_out};
ghost use Rattle.ouriscado.specs.OutExtend.{numbers_accepted, next_refusal, place_extended, moves_made, rewritten_by_moves};

use crate::answers::number_of_end;
use crate::head::put_head;
use book_desks::desk_of;
use book_extend::ExtendedBy;
use error::Refusal;

// Hands out how many numbers were accepted, by which number the next one was refused, the key's place, the moves and the records
// rewritten by them. Laid into its callers, as `put_head` is.
#[inline(always)]
fn put_extended(
    answer: Result<ExtendedBy, Refusal>,
    accepted: &mut u64,
    refusal: &mut u32,
    kind: &mut u8,
    class: &mut u8,
    used: &mut u16,
    place: &mut u64,
    moves: &mut u64,
    rewritten: &mut u64,
) -> u32
    ensures number { result ≡ refusal_of (extend_answer answer) }
    ensures accepted { accepted.new ≡ value_or numbers_accepted (extend_answer answer) 0 }
    ensures refusal { refusal.new ≡ value_or next_refusal (extend_answer answer) 0 }
    ensures kind { kind.new ≡ value_or (λ t. kind_out (place_extended t)) (extend_answer answer) 0 }
    ensures class { class.new ≡ value_or (λ t. class_out (place_extended t)) (extend_answer answer) 0 }
    ensures used { used.new ≡ value_or (λ t. used_out (place_extended t)) (extend_answer answer) 0 }
    ensures place { place.new ≡ value_or (λ t. place_out (place_extended t)) (extend_answer answer) 0 }
    ensures moves { moves.new ≡ value_or moves_made (extend_answer answer) 0 }
    ensures rewritten { rewritten.new ≡ value_or rewritten_by_moves (extend_answer answer) 0 }
{
    match answer {
        Ok(by) => {
            *accepted = by.count;
            *refusal = number_of_end(by.refusal);
            *moves = by.moves;
            *rewritten = by.rewritten;
            put_head(Ok(by.place), kind, class, used, place)
        }
        Err(turned_back) => {
            *accepted = 0;
            *refusal = 0;
            *moves = 0;
            *rewritten = 0;
            put_head(Err(turned_back), kind, class, used, place)
        }
    }
}

// Appends record numbers to the list of a key as ouriscado_book_extend does, for the desk of a number: 39 above 15. The counts are judged
// where blocks are taken, behind 36. Refuses 1, 2, 31, 39.
#[unsafe(no_mangle)]
pub extern "C" fn ouriscado_core_extend(
    body: &mut [u8],
    heads: &mut [u64],
    mark: &mut u64,
    free: &mut [u64; 9],
    counts: &mut [u64; 49],
    desk: u64,
    key: u64,
    fks: &[u64],
    accepted: &mut u64,
    refusal: &mut u32,
    kind: &mut u8,
    class: &mut u8,
    used: &mut u16,
    place: &mut u64,
    moves: &mut u64,
    rewritten: &mut u64,
) -> u32
    ensures number { result ≡ refusal_of (extends desk
        (book_of body.old heads.old mark.old free.old counts.old) key
        fks.now) }
    ensures book { book_of body.new heads.new mark.new free.new counts.new
        ≡ book_after (book_of body.old heads.old mark.old free.old counts.old)
        (extends desk
        (book_of body.old heads.old mark.old free.old counts.old) key
        fks.now) }
    ensures accepted { accepted.new ≡ value_or numbers_accepted (answer_of (extends desk
        (book_of body.old heads.old mark.old free.old counts.old) key
        fks.now)) 0 }
    ensures refusal { refusal.new ≡ value_or next_refusal (answer_of (extends desk
        (book_of body.old heads.old mark.old free.old counts.old) key
        fks.now)) 0 }
    ensures kind { kind.new ≡ value_or (λ t. kind_out (place_extended t)) (answer_of (extends desk
        (book_of body.old heads.old mark.old free.old counts.old) key
        fks.now)) 0 }
    ensures class { class.new ≡ value_or (λ t. class_out (place_extended t)) (answer_of (extends desk
        (book_of body.old heads.old mark.old free.old counts.old) key
        fks.now)) 0 }
    ensures used { used.new ≡ value_or (λ t. used_out (place_extended t)) (answer_of (extends desk
        (book_of body.old heads.old mark.old free.old counts.old) key
        fks.now)) 0 }
    ensures place { place.new ≡ value_or (λ t. place_out (place_extended t)) (answer_of (extends desk
        (book_of body.old heads.old mark.old free.old counts.old) key
        fks.now)) 0 }
    ensures moves { moves.new ≡ value_or moves_made (answer_of (extends desk
        (book_of body.old heads.old mark.old free.old counts.old) key
        fks.now)) 0 }
    ensures rewritten { rewritten.new ≡ value_or rewritten_by_moves (answer_of (extends desk
        (book_of body.old heads.old mark.old free.old counts.old) key
        fks.now)) 0 }
    ensures kept { result ≢ 0 → book_of body.new heads.new mark.new free.new counts.new
        ≡ book_of body.old heads.old mark.old free.old counts.old }
{
    let answer = book_extend::extend(body, heads, mark, free, counts, desk, key, fks);
    put_extended(
        answer, accepted, refusal, kind, class, used, place, moves, rewritten,
    )
}

// Appends record numbers to the list of a key, the first first, each as ouriscado_core_append does, until one is refused: those before it
// stay appended, and the call is accepted. The key is judged before the numbers, as an append judges it: of pages the last one alone. The
// list may have any length; of one without numbers the key is judged alone. Hands out accepted, how many numbers were appended; refusal,
// the number by which the next one was refused, which is 1, 12 to 14, 31, 32, 35, 36, 40 or 41, or 0 where all were appended; kind, class,
// used and place, where the list stands then, as an append tells it, with a kind of 0 for a key that is empty; moves, how many of the
// appends moved the list; and rewritten, how many numbers these wrote anew, summed. Refuses 1, 2, 31, 39.
#[unsafe(no_mangle)]
pub extern "C" fn ouriscado_book_extend(
    body: &mut [u8],
    heads: &mut [u64],
    mark: &mut u64,
    free: &mut [u64; 9],
    counts: &mut [u64; 49],
    desks: &[u8],
    key: u64,
    fks: &[u64],
    accepted: &mut u64,
    refusal: &mut u32,
    kind: &mut u8,
    class: &mut u8,
    used: &mut u16,
    place: &mut u64,
    moves: &mut u64,
    rewritten: &mut u64,
) -> u32
    ensures number { result ≡ refusal_of (extends_with desks.now
        (book_of body.old heads.old mark.old free.old counts.old) key
        fks.now) }
    ensures book { book_of body.new heads.new mark.new free.new counts.new
        ≡ book_after (book_of body.old heads.old mark.old free.old counts.old)
        (extends_with desks.now
        (book_of body.old heads.old mark.old free.old counts.old) key
        fks.now) }
    ensures accepted { accepted.new ≡ value_or numbers_accepted (answer_of (extends_with desks.now
        (book_of body.old heads.old mark.old free.old counts.old) key
        fks.now)) 0 }
    ensures refusal { refusal.new ≡ value_or next_refusal (answer_of (extends_with desks.now
        (book_of body.old heads.old mark.old free.old counts.old) key
        fks.now)) 0 }
    ensures kind { kind.new ≡ value_or (λ t. kind_out (place_extended t)) (answer_of (extends_with desks.now
        (book_of body.old heads.old mark.old free.old counts.old) key
        fks.now)) 0 }
    ensures class { class.new ≡ value_or (λ t. class_out (place_extended t)) (answer_of (extends_with desks.now
        (book_of body.old heads.old mark.old free.old counts.old) key
        fks.now)) 0 }
    ensures used { used.new ≡ value_or (λ t. used_out (place_extended t)) (answer_of (extends_with desks.now
        (book_of body.old heads.old mark.old free.old counts.old) key
        fks.now)) 0 }
    ensures place { place.new ≡ value_or (λ t. place_out (place_extended t)) (answer_of (extends_with desks.now
        (book_of body.old heads.old mark.old free.old counts.old) key
        fks.now)) 0 }
    ensures moves { moves.new ≡ value_or moves_made (answer_of (extends_with desks.now
        (book_of body.old heads.old mark.old free.old counts.old) key
        fks.now)) 0 }
    ensures rewritten { rewritten.new ≡ value_or rewritten_by_moves (answer_of (extends_with desks.now
        (book_of body.old heads.old mark.old free.old counts.old) key
        fks.now)) 0 }
    ensures kept { result ≢ 0 → book_of body.new heads.new mark.new free.new counts.new
        ≡ book_of body.old heads.old mark.old free.old counts.old }
{
    if let Err(turned_back) = book::judge_call(body, heads.len(), *mark, counts, desks) {
        return put_extended(
            Err(turned_back),
            accepted,
            refusal,
            kind,
            class,
            used,
            place,
            moves,
            rewritten,
        );
    }
    let desk = desk_of(desks, key);
    ouriscado_core_extend(
        body, heads, mark, free, counts, desk, key, fks, accepted, refusal, kind, class, used,
        place, moves, rewritten,
    )
}
