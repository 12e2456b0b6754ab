// The functions of crate ouriscado in src/account_book.rt, for C: each export calls the one of its name, whose comment says what it does.
ghost use Rattle.std.specs.Prelude.{List, ◌≢◌, ◌≡◌, ℕ, ◌/◌, length as length_of_list};
ghost use Rattle.error.specs.Refusal.{refusal_of, value_or};
ghost use Rattle.book_rules.specs.Outcomes.{answer_of, book_after};
ghost use Rattle.book_rules.specs.declared.places.SlabFit.TheVariants.{Spare, Tight};
ghost use Rattle.book.specs.Answers.{book_of};
ghost use Rattle.book_start.specs.Making.{makes_fresh, made_after};
ghost use Rattle.book_load.specs.Loads.{loads_with};
ghost use Rattle.book_append.specs.Appends.{appends_with};
ghost use Rattle.book_read.specs.Reads.{reads_with, list_after};
ghost use Rattle.book_drop.specs.Drops.{drops_with};
ghost use Rattle.book_read.specs.Answers.{counted_of};
ghost use Rattle.book_start.specs.Start.{judges};
ghost use Rattle.book_start.specs.Units.{work_after};
ghost use Rattle.book_start.specs.Answers.{ground_of, which_of, lost_of};
ghost use Rattle.ouriscado.specs.OutHead.{kind_out, class_out, used_out, place_out};
ghost use Rattle.ouriscado.specs.OutBook.{pages_loaded, new_place, records_rewritten, length_dropped};

#[unsafe(no_mangle)]
pub extern "C" fn ouriscado_book_fresh(
    body: &[u8],
    heads: &mut [u64],
    mark: &mut u64,
    free: &mut [u64; 9],
    counts: &mut [u64; 49],
    desks: &[u8],
    reserve: &[u64; 16],
    ceiling: &[u64; 16],
) -> u32
    ensures number { result ≡ refusal_of (makes_fresh desks.now
        (record { reserve = reserve.now; ceiling = ceiling.now })
        (book_of body.now heads.old mark.old free.old counts.old)) }
    ensures book { book_of body.now heads.new mark.new free.new counts.new
        ≡ made_after
        (book_of body.now heads.old mark.old free.old counts.old)
        (makes_fresh desks.now (record { reserve = reserve.now; ceiling = ceiling.now })
        (book_of body.now heads.old mark.old free.old counts.old)) }
    ensures kept { result ≢ 0 → book_of body.now heads.new mark.new free.new counts.new
        ≡ book_of body.now heads.old mark.old free.old counts.old }
{
    ouriscado::ouriscado_book_fresh(body, heads, mark, free, counts, desks, reserve, ceiling)
}

#[unsafe(no_mangle)]
pub extern "C" fn ouriscado_book_load(
    body: &mut [u8],
    heads: &mut [u64],
    mark: &mut u64,
    free: &mut [u64; 9],
    counts: &mut [u64; 49],
    desks: &[u8],
    key: u64,
    fks: &[u64],
    pages: &mut u64,
) -> u32
    ensures number { result ≡ refusal_of (loads_with Spare desks.now
        (book_of body.old heads.old mark.old free.old counts.old) key
        fks.now) }
    ensures book { book_of body.new heads.new mark.new free.new counts.new
        ≡ book_after
        (book_of body.old heads.old mark.old free.old counts.old)
        (loads_with Spare desks.now
        (book_of body.old heads.old mark.old free.old counts.old) key
        fks.now) }
    ensures pages { pages.new ≡ value_or pages_loaded (answer_of (loads_with Spare desks.now
        (book_of body.old heads.old mark.old free.old counts.old) key
        fks.now)) 0 }
    ensures kept { result ≢ 0 → book_of body.new heads.new mark.new free.new counts.new
        ≡ book_of body.old heads.old mark.old free.old counts.old }
{
    ouriscado::ouriscado_book_load(body, heads, mark, free, counts, desks, key, fks, pages)
}

#[unsafe(no_mangle)]
pub extern "C" fn ouriscado_book_load_tight(
    body: &mut [u8],
    heads: &mut [u64],
    mark: &mut u64,
    free: &mut [u64; 9],
    counts: &mut [u64; 49],
    desks: &[u8],
    key: u64,
    fks: &[u64],
    pages: &mut u64,
) -> u32
    ensures number { result ≡ refusal_of (loads_with Tight desks.now
        (book_of body.old heads.old mark.old free.old counts.old) key
        fks.now) }
    ensures book { book_of body.new heads.new mark.new free.new counts.new
        ≡ book_after
        (book_of body.old heads.old mark.old free.old counts.old)
        (loads_with Tight desks.now
        (book_of body.old heads.old mark.old free.old counts.old) key
        fks.now) }
    ensures pages { pages.new ≡ value_or pages_loaded (answer_of (loads_with Tight desks.now
        (book_of body.old heads.old mark.old free.old counts.old) key
        fks.now)) 0 }
    ensures kept { result ≢ 0 → book_of body.new heads.new mark.new free.new counts.new
        ≡ book_of body.old heads.old mark.old free.old counts.old }
{
    ouriscado::ouriscado_book_load_tight(body, heads, mark, free, counts, desks, key, fks, pages)
}

#[unsafe(no_mangle)]
pub extern "C" fn ouriscado_book_append(
    body: &mut [u8],
    heads: &mut [u64],
    mark: &mut u64,
    free: &mut [u64; 9],
    counts: &mut [u64; 49],
    desks: &[u8],
    key: u64,
    fk: u64,
    kind: &mut u8,
    class: &mut u8,
    used: &mut u16,
    place: &mut u64,
    rewritten: &mut u64,
) -> u32
    ensures number { result ≡ refusal_of (appends_with desks.now
        (book_of body.old heads.old mark.old free.old counts.old) key fk) }
    ensures book { book_of body.new heads.new mark.new free.new counts.new
        ≡ book_after
        (book_of body.old heads.old mark.old free.old counts.old)
        (appends_with desks.now
        (book_of body.old heads.old mark.old free.old counts.old) key fk) }
    ensures kind { kind.new ≡ value_or (λ t. kind_out (new_place t)) (answer_of (appends_with desks.now
        (book_of body.old heads.old mark.old free.old counts.old) key fk)) 0 }
    ensures class { class.new ≡ value_or (λ t. class_out (new_place t)) (answer_of (appends_with desks.now
        (book_of body.old heads.old mark.old free.old counts.old) key fk)) 0 }
    ensures used { used.new ≡ value_or (λ t. used_out (new_place t)) (answer_of (appends_with desks.now
        (book_of body.old heads.old mark.old free.old counts.old) key fk)) 0 }
    ensures place { place.new ≡ value_or (λ t. place_out (new_place t)) (answer_of (appends_with desks.now
        (book_of body.old heads.old mark.old free.old counts.old) key fk)) 0 }
    ensures rewritten { rewritten.new ≡ value_or records_rewritten (answer_of (appends_with desks.now
        (book_of body.old heads.old mark.old free.old counts.old) key fk)) 0 }
    ensures kept { result ≢ 0 → book_of body.new heads.new mark.new free.new counts.new
        ≡ book_of body.old heads.old mark.old free.old counts.old }
{
    ouriscado::ouriscado_book_append(
        body, heads, mark, free, counts, desks, key, fk, kind, class, used, place, rewritten,
    )
}

#[unsafe(no_mangle)]
pub extern "C" fn ouriscado_book_read(
    body: &[u8],
    heads: &[u64],
    mark: u64,
    counts: &[u64; 49],
    desks: &[u8],
    key: u64,
    out: &mut [u64],
    length: &mut u64,
    pages: &mut u64,
    padded: &mut u64,
) -> u32
    ensures number { (free : List ℕ) → result ≡ refusal_of (reads_with desks.now
        (book_of body.now heads.now mark free counts.now) key (length_of_list out.old)) }
    ensures list { (free : List ℕ) → out.new
        ≡ list_after out.old (reads_with desks.now
        (book_of body.now heads.now mark free counts.now) key (length_of_list out.old)) }
    ensures length { (free : List ℕ) → length.new
        ≡ value_or (λ t. (counted_of t).length) (reads_with desks.now
        (book_of body.now heads.now mark free counts.now) key (length_of_list out.old)) 0 }
    ensures pages { (free : List ℕ) → pages.new
        ≡ value_or (λ t. (counted_of t).pages) (reads_with desks.now
        (book_of body.now heads.now mark free counts.now) key (length_of_list out.old)) 0 }
    ensures padded { (free : List ℕ) → padded.new
        ≡ value_or (λ t. (counted_of t).padded) (reads_with desks.now
        (book_of body.now heads.now mark free counts.now) key (length_of_list out.old)) 0 }
    ensures kept { result ≢ 0 → out.new ≡ out.old }
{
    ouriscado::ouriscado_book_read(
        body, heads, mark, counts, desks, key, out, length, pages, padded,
    )
}

#[unsafe(no_mangle)]
pub extern "C" fn ouriscado_book_drop(
    body: &mut [u8],
    heads: &mut [u64],
    mark: &mut u64,
    free: &mut [u64; 9],
    counts: &mut [u64; 49],
    desks: &[u8],
    key: u64,
    length: &mut u64,
) -> u32
    ensures number { result ≡ refusal_of (drops_with desks.now
        (book_of body.old heads.old mark.old free.old counts.old) key) }
    ensures book { book_of body.new heads.new mark.new free.new counts.new
        ≡ book_after
        (book_of body.old heads.old mark.old free.old counts.old)
        (drops_with desks.now
        (book_of body.old heads.old mark.old free.old counts.old) key) }
    ensures length { length.new ≡ value_or length_dropped (answer_of (drops_with desks.now
        (book_of body.old heads.old mark.old free.old counts.old) key)) 0 }
    ensures kept { result ≢ 0 → book_of body.new heads.new mark.new free.new counts.new
        ≡ book_of body.old heads.old mark.old free.old counts.old }
{
    ouriscado::ouriscado_book_drop(body, heads, mark, free, counts, desks, key, length)
}

#[unsafe(no_mangle)]
pub extern "C" fn ouriscado_book_check(
    body: &[u8],
    heads: &[u64],
    mark: u64,
    free: &[u64; 9],
    counts: &[u64; 49],
    desks: &[u8],
    work: &mut [u8],
    fault: &mut u32,
    which: &mut u64,
    lost: &mut u64,
) -> u32
    ensures number { result ≡ refusal_of (judges desks.now
        (book_of body.now heads.now mark free.now counts.now)
        (length_of_list work.old)) }
    ensures list { work.new
        ≡ work_after (length_of_list body.now / 128) work.old (judges desks.now
        (book_of body.now heads.now mark free.now counts.now)
        (length_of_list work.old)) }
    ensures fault { fault.new ≡ value_or ground_of (judges desks.now
        (book_of body.now heads.now mark free.now counts.now)
        (length_of_list work.old)) 0 }
    ensures which { which.new ≡ value_or which_of (judges desks.now
        (book_of body.now heads.now mark free.now counts.now)
        (length_of_list work.old)) 0 }
    ensures lost { lost.new ≡ value_or lost_of (judges desks.now
        (book_of body.now heads.now mark free.now counts.now)
        (length_of_list work.old)) 0 }
    ensures kept { result ≢ 0 → work.new ≡ work.old }
{
    ouriscado::ouriscado_book_check(
        body, heads, mark, free, counts, desks, work, fault, which, lost,
    )
}
