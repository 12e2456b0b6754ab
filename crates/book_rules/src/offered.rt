// What can be offered to a book: a number, and a list number by number.
ghost use Rattle.std.specs.Prelude.{◌≡◌, true, ℕ, ◌-◌, ◌^◌, ◌<◌, eqb};
ghost use Rattle.error.specs.Refusal.{accepted, refusal_of};
ghost use Rattle.error.specs.Answers.{refusal_in};
ghost use Rattle.compact.specs.Uleb128.{uleb_len};
ghost use Rattle.scripthash_stream.specs.Stream.{stream_len};
ghost use Rattle.scripthash_stream.specs.Answers.{bytes_answer};
ghost use Rattle.book_rules.specs.Offered.{offered_number, offered_list};

use error::Refusal;
use scripthash_stream::BIT_63;

// The first number that a book doesn't take.
const TOO_LARGE: u64 = 0x4000_0000_0000_0000;

// Judges a number that is offered behind an accepted one, 0 where it is the first: the length of its form there, or its refusal.
#[tactic(auto, unfolding(crate::specs::Offered::offered_number, error::specs::Refusal::refuse_if))]
fn judge_behind(prev: u64, fk: u64) -> Result<usize, Refusal>
    requires { prev < 2 ^ 62 }
    ensures { bytes_answer result ≡ offered_number (eqb prev 0) prev fk (accepted (uleb_len (fk - prev))) }
{
    if fk <= prev {
        if prev == 0 {
            return Err(Refusal::OfferedFirstZero);
        }
        return Err(Refusal::OfferedNotRising);
    }
    if TOO_LARGE <= fk {
        if BIT_63 <= fk {
            return Err(Refusal::OfferedBit63);
        }
        return Err(Refusal::OfferedTooLarge);
    }
    Ok(compact::uleb128_len(fk - prev))
}

// Judges a number that is offered alone, as one behind 0.
#[tactic(auto, unfolding(crate::specs::Offered::offered_number, error::specs::Refusal::refuse_if))]
pub fn judge_number(n: u64) -> Result<(), Refusal>
    ensures { refusal_in result ≡ refusal_of {A = ℕ} (offered_number true 0 n (accepted 0)) }
{
    judge_behind(0, n)?;
    Ok(())
}

// Judges an offered list number by number, and measures its stream.
pub fn judge_list(fks: &[u64]) -> Result<usize, Refusal>
    ensures { bytes_answer result ≡ offered_list true 0 fks.now (accepted (stream_len fks.now)) }
{
    let mut prev: u64 = 0;
    let mut len: usize = 0;
    for fk in fks {
        len += judge_behind(prev, *fk)?;
        prev = *fk;
    }
    Ok(len)
}
