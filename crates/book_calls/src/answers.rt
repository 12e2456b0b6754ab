// The words of answers, written to the start of a lent list.
ghost use Rattle.std.specs.Prelude.{[], ◌∷◌, ◌≡◌, ◌≤◌, ◌<◌, length};
ghost use Rattle.error.specs.Refusal.{accepted, refused};
ghost use Rattle.error.specs.Answers.{number_of};
ghost use Rattle.buffer.specs.Bytes.{overwrite};
ghost use Rattle.book_rules.specs.Outcomes.{appended_to};
ghost use Rattle.book_words.specs.Spelled.{appended};
ghost use Rattle.book_words.specs.SpellAnswers.{spell_place};
ghost use Rattle.book_calls.specs.Flat.{load_told, append_told, drop_told};
ghost use Rattle.book_calls.specs.Steps.{Answered, read_words, read_len};

use book_append::AppendedTo;
use book_read::BookRead;
use error::Refusal;
use scripthash_layout::ShHeadValue;

// The kinds of what is told, behind the 0 of an accepted call.
const LOADED: u64 = 0;

const APPENDED: u64 = 1;

const LISTED: u64 = 2;

const DROPPED: u64 = 3;

// Writes the word of a refusal.
fn put_refusal(out: &mut [u64], refusal: Refusal) -> usize
    requires { 0 < length out.old }
    ensures { Answered (refused (number_of refusal)) out.old out.new result }
{
    out[0] = u64::from(u32::from(refusal));
    1
}

// Writes three words.
fn put_three(out: &mut [u64], a: u64, b: u64, c: u64)
    requires { 3 ≤ length out.old }
    ensures { out.new ≡ overwrite out.old 0 (a ∷ b ∷ c ∷ []) }
{
    out[0] = a;
    out[1] = b;
    out[2] = c;
}

// Writes four words.
fn put_four(out: &mut [u64], a: u64, b: u64, c: u64, d: u64)
    requires { 4 ≤ length out.old }
    ensures { out.new ≡ overwrite out.old 0 (a ∷ b ∷ c ∷ d ∷ []) }
{
    out[0] = a;
    out[1] = b;
    out[2] = c;
    out[3] = d;
}

// Writes five words.
fn put_five(out: &mut [u64], a: u64, b: u64, c: u64, d: u64, e: u64)
    requires { 5 ≤ length out.old }
    ensures { out.new ≡ overwrite out.old 0 (a ∷ b ∷ c ∷ d ∷ e ∷ []) }
{
    out[0] = a;
    out[1] = b;
    out[2] = c;
    out[3] = d;
    out[4] = e;
}

// Writes the words of a place.
fn put_place(out: &mut [u64], place: ShHeadValue)
    requires { 4 ≤ length out.old }
    ensures { out.new ≡ overwrite out.old 0 (spell_place place) }
{
    match place {
        ShHeadValue::Empty => put_four(out, 0, 0, 0, 0),
        ShHeadValue::Inline { entry, used } => put_four(out, 1, 0, used as u64, entry),
        ShHeadValue::Slab { class, used, off } => {
            put_four(out, 2, class as u64, used as u64, off)
        }
        ShHeadValue::Extent { last_page } => put_four(out, 3, 0, 0, last_page),
    }
}

// Writes the words of an accepted append.
fn put_appended(out: &mut [u64], to: AppendedTo) -> usize
    requires { 7 ≤ length out.old }
    ensures { Answered (accepted (appended (appended_to to.place to.rewritten))) out.old
        out.new result }
{
    let place = to.place;
    put_three(out, 0, APPENDED, to.rewritten);
    put_place(&mut out[3..], place);
    7
}

// Writes the answer of a load.
pub fn put_load(out: &mut [u64], answer: Result<u64, Refusal>) -> usize
    requires { 3 ≤ length out.old }
    ensures { Answered (load_told answer) out.old out.new result }
{
    match answer {
        Ok(pages) => {
            put_three(out, 0, LOADED, pages);
            3
        }
        Err(refusal) => put_refusal(out, refusal),
    }
}

// Writes the answer of an append.
pub fn put_append(out: &mut [u64], answer: Result<AppendedTo, Refusal>) -> usize
    requires { 7 ≤ length out.old }
    ensures { Answered (append_told answer) out.old out.new result }
{
    match answer {
        Ok(to) => put_appended(out, to),
        Err(refusal) => put_refusal(out, refusal),
    }
}

// Writes the answer of a drop.
pub fn put_drop(out: &mut [u64], answer: Result<u64, Refusal>) -> usize
    requires { 3 ≤ length out.old }
    ensures { Answered (drop_told answer) out.old out.new result }
{
    match answer {
        Ok(length) => {
            put_three(out, 0, DROPPED, length);
            3
        }
        Err(refusal) => put_refusal(out, refusal),
    }
}

// Writes the answer of a read before its list, which stands there already.
pub fn put_read(out: &mut [u64], answer: Result<BookRead, Refusal>) -> usize
    requires { (5 ≤ length out.old) × (read_len answer ≤ length out.old) }
    ensures words { out.new ≡ overwrite out.old 0 (read_words answer) }
    ensures len { result ≡ read_len answer }
{
    match answer {
        Ok(
            BookRead {
                length,
                pages,
                padded,
            },
        ) => {
            put_five(out, 0, LISTED, pages, padded, length);
            5 + length as usize
        }
        Err(refusal) => put_refusal(out, refusal),
    }
}
