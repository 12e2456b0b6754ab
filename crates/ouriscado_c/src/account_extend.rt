// The functions of crate ouriscado in src/account_extend.rt, for C: each export calls the one of its name, whose comment says what it does.
ghost use Rattle.std.specs.Prelude.{◌≢◌, ◌≡◌};
ghost use Rattle.error.specs.Refusal.{refusal_of, value_or};
ghost use Rattle.book_rules.specs.Outcomes.{answer_of, book_after};
ghost use Rattle.book.specs.Answers.{book_of};
ghost use Rattle.book_extend.specs.Extends.{extends, extends_with};
ghost use Rattle.ouriscado.specs.OutHead.{kind_out, class_out, used_out, place_out};
ghost use Rattle.ouriscado.specs.OutExtend.{numbers_accepted, next_refusal, place_extended, moves_made, rewritten_by_moves};

#[unsafe(no_mangle)]
pub extern "C" fn ouriscado_core_extend(
    body: &mut [u8],
    heads: &mut [u64],
    mark: &mut u64,
    free: &mut [u64; 9],
    counts: &mut [u64; 49],
    desk: u64,
    key: u64,
    fks: &[u64],
    accepted: &mut u64,
    refusal: &mut u32,
    kind: &mut u8,
    class: &mut u8,
    used: &mut u16,
    place: &mut u64,
    moves: &mut u64,
    rewritten: &mut u64,
) -> u32
    ensures number { result ≡ refusal_of (extends desk
        (book_of body.old heads.old mark.old free.old counts.old) key
        fks.now) }
    ensures book { book_of body.new heads.new mark.new free.new counts.new
        ≡ book_after (book_of body.old heads.old mark.old free.old counts.old)
        (extends desk
        (book_of body.old heads.old mark.old free.old counts.old) key
        fks.now) }
    ensures accepted { accepted.new ≡ value_or numbers_accepted (answer_of (extends desk
        (book_of body.old heads.old mark.old free.old counts.old) key
        fks.now)) 0 }
    ensures refusal { refusal.new ≡ value_or next_refusal (answer_of (extends desk
        (book_of body.old heads.old mark.old free.old counts.old) key
        fks.now)) 0 }
    ensures kind { kind.new ≡ value_or (λ t. kind_out (place_extended t)) (answer_of (extends desk
        (book_of body.old heads.old mark.old free.old counts.old) key
        fks.now)) 0 }
    ensures class { class.new ≡ value_or (λ t. class_out (place_extended t)) (answer_of (extends desk
        (book_of body.old heads.old mark.old free.old counts.old) key
        fks.now)) 0 }
    ensures used { used.new ≡ value_or (λ t. used_out (place_extended t)) (answer_of (extends desk
        (book_of body.old heads.old mark.old free.old counts.old) key
        fks.now)) 0 }
    ensures place { place.new ≡ value_or (λ t. place_out (place_extended t)) (answer_of (extends desk
        (book_of body.old heads.old mark.old free.old counts.old) key
        fks.now)) 0 }
    ensures moves { moves.new ≡ value_or moves_made (answer_of (extends desk
        (book_of body.old heads.old mark.old free.old counts.old) key
        fks.now)) 0 }
    ensures rewritten { rewritten.new ≡ value_or rewritten_by_moves (answer_of (extends desk
        (book_of body.old heads.old mark.old free.old counts.old) key
        fks.now)) 0 }
    ensures kept { result ≢ 0 → book_of body.new heads.new mark.new free.new counts.new
        ≡ book_of body.old heads.old mark.old free.old counts.old }
{
    ouriscado::ouriscado_core_extend(
        body, heads, mark, free, counts, desk, key, fks, accepted, refusal, kind, class, used,
        place, moves, rewritten,
    )
}

#[unsafe(no_mangle)]
pub extern "C" fn ouriscado_book_extend(
    body: &mut [u8],
    heads: &mut [u64],
    mark: &mut u64,
    free: &mut [u64; 9],
    counts: &mut [u64; 49],
    desks: &[u8],
    key: u64,
    fks: &[u64],
    accepted: &mut u64,
    refusal: &mut u32,
    kind: &mut u8,
    class: &mut u8,
    used: &mut u16,
    place: &mut u64,
    moves: &mut u64,
    rewritten: &mut u64,
) -> u32
    ensures number { result ≡ refusal_of (extends_with desks.now
        (book_of body.old heads.old mark.old free.old counts.old) key
        fks.now) }
    ensures book { book_of body.new heads.new mark.new free.new counts.new
        ≡ book_after (book_of body.old heads.old mark.old free.old counts.old)
        (extends_with desks.now
        (book_of body.old heads.old mark.old free.old counts.old) key
        fks.now) }
    ensures accepted { accepted.new ≡ value_or numbers_accepted (answer_of (extends_with desks.now
        (book_of body.old heads.old mark.old free.old counts.old) key
        fks.now)) 0 }
    ensures refusal { refusal.new ≡ value_or next_refusal (answer_of (extends_with desks.now
        (book_of body.old heads.old mark.old free.old counts.old) key
        fks.now)) 0 }
    ensures kind { kind.new ≡ value_or (λ t. kind_out (place_extended t)) (answer_of (extends_with desks.now
        (book_of body.old heads.old mark.old free.old counts.old) key
        fks.now)) 0 }
    ensures class { class.new ≡ value_or (λ t. class_out (place_extended t)) (answer_of (extends_with desks.now
        (book_of body.old heads.old mark.old free.old counts.old) key
        fks.now)) 0 }
    ensures used { used.new ≡ value_or (λ t. used_out (place_extended t)) (answer_of (extends_with desks.now
        (book_of body.old heads.old mark.old free.old counts.old) key
        fks.now)) 0 }
    ensures place { place.new ≡ value_or (λ t. place_out (place_extended t)) (answer_of (extends_with desks.now
        (book_of body.old heads.old mark.old free.old counts.old) key
        fks.now)) 0 }
    ensures moves { moves.new ≡ value_or moves_made (answer_of (extends_with desks.now
        (book_of body.old heads.old mark.old free.old counts.old) key
        fks.now)) 0 }
    ensures rewritten { rewritten.new ≡ value_or rewritten_by_moves (answer_of (extends_with desks.now
        (book_of body.old heads.old mark.old free.old counts.old) key
        fks.now)) 0 }
    ensures kept { result ≢ 0 → book_of body.new heads.new mark.new free.new counts.new
        ≡ book_of body.old heads.old mark.old free.old counts.old }
{
    ouriscado::ouriscado_book_extend(
        body, heads, mark, free, counts, desks, key, fks, accepted, refusal, kind, class, used,
        place, moves, rewritten,
    )
}
