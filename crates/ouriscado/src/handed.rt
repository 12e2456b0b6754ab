// What the calls of the account book hand out: numbers in place of their answers.
ghost use Rattle.std.specs.Prelude.{◌≡◌};
ghost use Rattle.error.specs.Refusal.{refusal_of, value_or};
ghost use Rattle.book_append.specs.Answers.{append_answer};
ghost use Rattle.book_read.specs.Answers.{read_answer};
ghost use Rattle.ouriscado.specs.OutHead.{kind_out, class_out, used_out, place_out};
ghost use Rattle.ouriscado.specs.OutBook.{new_place, records_rewritten};

use crate::head::put_head;
use book_append::AppendedTo;
use book_read::BookRead;
use error::Refusal;

// Hands out a key's new place, and the records rewritten. Laid into its callers, as `put_head` is.
#[inline(always)]
pub fn put_appended(
    answer: Result<AppendedTo, Refusal>,
    kind: &mut u8,
    class: &mut u8,
    used: &mut u16,
    place: &mut u64,
    rewritten: &mut u64,
) -> u32
    ensures number { result ≡ refusal_of (append_answer answer) }
    ensures kind { kind.new ≡ value_or (λ t. kind_out (new_place t)) (append_answer answer) 0 }
    ensures class { class.new ≡ value_or (λ t. class_out (new_place t)) (append_answer answer) 0 }
    ensures used { used.new ≡ value_or (λ t. used_out (new_place t)) (append_answer answer) 0 }
    ensures place { place.new ≡ value_or (λ t. place_out (new_place t)) (append_answer answer) 0 }
    ensures rewritten { rewritten.new ≡ value_or records_rewritten (append_answer answer) 0 }
{
    match answer {
        Ok(to) => {
            *rewritten = to.rewritten;
            put_head(Ok(to.place), kind, class, used, place)
        }
        Err(refusal) => {
            *rewritten = 0;
            put_head(Err(refusal), kind, class, used, place)
        }
    }
}

// Hands out how many numbers were read, the pages walked, and how many of the numbers are padded.
pub fn put_listed(
    answer: Result<BookRead, Refusal>,
    count: &mut u64,
    walked: &mut u64,
    longer: &mut u64,
) -> u32
    ensures number { result ≡ refusal_of (read_answer answer) }
    ensures count { count.new ≡ value_or (λ c. c.length) (read_answer answer) 0 }
    ensures walked { walked.new ≡ value_or (λ c. c.pages) (read_answer answer) 0 }
    ensures longer { longer.new ≡ value_or (λ c. c.padded) (read_answer answer) 0 }
{
    match answer {
        Ok(read) => {
            *count = read.length;
            *walked = read.pages;
            *longer = read.padded;
            0
        }
        Err(refusal) => {
            *count = 0;
            *walked = 0;
            *longer = 0;
            u32::from(refusal)
        }
    }
}
