// Answers as C has them: a number in place of a refusal, 0 where there is none, and a value through a pointer.
ghost use Rattle.std.specs.Prelude.{◌≡◌, true, false};
ghost use Rattle.error.specs.Answers.{refusal_in};
ghost use Rattle.book_extend.specs.Answers.{refusal_number};
ghost use Rattle.ouriscado.specs.Answers.{value_in, value_of, is_there};

use error::Refusal;

// The number of an answer's refusal, 0 where it isn't refused.
pub fn number<T: Copy>(answer: Result<T, Refusal>) -> u32
    ensures { result ≡ refusal_in answer }
{
    match answer {
        Ok(_) => 0,
        Err(refusal) => u32::from(refusal),
    }
}

// The number of the refusal that ended a call, 0 where none did.
pub fn number_of_end(refusal: Option<Refusal>) -> u32
    ensures { result ≡ refusal_number refusal }
{
    match refusal {
        Some(refusal) => u32::from(refusal),
        None => 0,
    }
}

// Hands out the value of an answer, or another where it is refused.
pub fn hand_out<T: Copy>(answer: Result<T, Refusal>, other: T, out: &mut T) -> u32
    ensures number { result ≡ refusal_in answer }
    ensures value { out.new ≡ value_in answer other }
{
    match answer {
        Ok(value) => {
            *out = value;
            0
        }
        Err(refusal) => {
            *out = other;
            u32::from(refusal)
        }
    }
}

// Hands out a value, or another where there is none; tells whether there is one.
pub fn hand_out_some<T: Copy>(choice: Option<T>, other: T, out: &mut T) -> bool
    ensures some { result ≡ is_there choice }
    ensures value { out.new ≡ value_of choice other }
{
    match choice {
        Some(value) => {
            *out = value;
            true
        }
        None => {
            *out = other;
            false
        }
    }
}
