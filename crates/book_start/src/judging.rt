// Judging a start: keys rising, then classes rising, then the counts, desks rising, and the first fault decides.
ghost use Rattle.std.specs.Prelude.{List, [], ◌≡◌, ℕ, ◌/◌, length};
ghost use Rattle.scripthash_free.specs.FreeList.{Block};
ghost use Rattle.book_space.specs.Space.{space};
ghost use Rattle.book.specs.Answers.{book_of};
ghost use Rattle.book_start.specs.Start.{judge_lists, judge_keys, judges};
ghost use Rattle.book_start.specs.Answers.{verdict_of, start_answer, ground_of, which_of, lost_of};
ghost use Rattle.book_start.specs.Units.{units_of, Marked, Leaves, JudgesAs, work_after};
ghost use Rattle.book_start.specs.Steps.{ListsToJudge, KeysToJudge};

use crate::claiming::{ClaimFault, claim_freed, claim_key};
use crate::counts::judge_counts;
use crate::units::{PAGE_UNITS, WORK_BYTES, fill_bytes};
use error::Refusal;

// What judging a start finds: it is good, with the units below the mark that belong to nobody; or the first fault, with its key, the class
// of its free list or its desk.
#[derive(Clone, Copy, Debug, PartialEq, Eq)]
pub enum Verdict {
    Good(u64),
    KeyUnsound(u64),
    KeyShares(u64),
    FreeStrays(u64),
    FreeShares(u64),
    CountsExceed,
    FreedDiffers,
    HeldDiffers(u64),
    HeldHigh(u64),
    ReserveHigh(u64),
    LacksOpen,
}

impl Verdict {
    // The number of the fault's ground, 0 where there is none.
    pub fn ground(self) -> u32
        ensures { result ≡ ground_of (verdict_of self) }
    {
        match self {
            Verdict::Good(_) => 0,
            Verdict::KeyUnsound(_) => 1,
            Verdict::KeyShares(_) => 2,
            Verdict::FreeStrays(_) => 3,
            Verdict::FreeShares(_) => 4,
            Verdict::CountsExceed => 5,
            Verdict::FreedDiffers => 6,
            Verdict::HeldDiffers(_) => 7,
            Verdict::HeldHigh(_) => 8,
            Verdict::ReserveHigh(_) => 9,
            Verdict::LacksOpen => 10,
        }
    }

    // The key of a fault, the class of its free list or its desk, 0 where there is none.
    pub fn which(self) -> u64
        ensures { result ≡ which_of (verdict_of self) }
    {
        match self {
            Verdict::KeyUnsound(key) | Verdict::KeyShares(key) => key,
            Verdict::FreeStrays(class) | Verdict::FreeShares(class) => class,
            Verdict::HeldDiffers(desk) | Verdict::HeldHigh(desk) | Verdict::ReserveHigh(desk) =>
                desk,
            Verdict::Good(_) | Verdict::CountsExceed | Verdict::FreedDiffers | Verdict::LacksOpen =>
                0,
        }
    }

    // The units below the mark that belong to nobody, where the start is good; 0 where it isn't.
    pub fn lost(self) -> u64
        ensures { result ≡ lost_of (verdict_of self) }
    {
        match self {
            Verdict::Good(lost) => lost,
            _ => 0,
        }
    }
}

// Claims the blocks of all free lists, classes rising, behind those that the work list shows, which leave so many units to nobody: good
// where all are claimed, with what they leave, else the first fault.
fn judge_lists(body: &[u8], mark: u64, free: &[u64], work: &mut [u8], unclaimed: u64) -> Verdict
    requires { ListsToJudge body.now mark free.now (units_of work.old) unclaimed }
    ensures { (units : ℕ) (lent : List ℕ) (claims : List Block) → Marked units mark lent claims (units_of work.old)
        → Leaves mark claims unclaimed
        → JudgesAs units mark lent (judge_lists (space body.now mark free.now) 0 free.now claims) result
        (units_of work.new) }
{
    let mut lost = unclaimed;
    for class in 0..free.len() {
        match claim_freed(body, mark, work, class as u8, free[class]) {
            Ok(taken) => lost -= taken,
            Err(ClaimFault::Unfit) => return Verdict::FreeStrays(class as u64),
            Err(ClaimFault::Shared) => return Verdict::FreeShares(class as u64),
        }
    }
    Verdict::Good(lost)
}

// Claims the blocks of all keys, keys rising, in a work list that shows no claims, and then those of all free lists: good where all are
// claimed, with the units that they leave, else the first fault.
fn judge_keys(body: &[u8], heads: &[u64], mark: u64, free: &[u64], work: &mut [u8]) -> Verdict
    requires { KeysToJudge body.now mark free.now (units_of work.old) }
    ensures { (units : ℕ) (lent : List ℕ) → Marked units mark lent [] (units_of work.old)
        → JudgesAs units mark lent (judge_keys (space body.now mark free.now) 0 heads.now []) result
        (units_of work.new) }
{
    let mut lost = mark / 16 - PAGE_UNITS;
    for key in 0..heads.len() {
        match claim_key(body, mark, work, heads[key]) {
            Ok(taken) => lost -= taken,
            Err(ClaimFault::Unfit) => return Verdict::KeyUnsound(key as u64),
            Err(ClaimFault::Shared) => return Verdict::KeyShares(key as u64),
        }
    }
    judge_lists(body, mark, free, work, lost)
}

// Judges whether a body, its head words, its mark, its free heads and its counts are a good start, with a list that names each key's desk.
// The work list has a bit for each 16 bytes of the body, a byte for each 128; these are 0 afterwards.
pub fn judge_start(
    body: &[u8],
    heads: &[u64],
    mark: u64,
    free: [u64; 9],
    counts: &[u64; 49],
    desks: &[u8],
    work: &mut [u8],
) -> Result<Verdict, Refusal>
    ensures answer { start_answer result ≡ judges desks.now
        (book_of body.now heads.now mark free counts.now) (length work.old) }
    ensures list { work.new ≡ work_after (length body.now / 128) work.old (judges desks.now
        (book_of body.now heads.now mark free counts.now) (length work.old)) }
{
    book::judge_call(body, heads.len(), mark, counts, desks)?;
    let bytes = body.len() / WORK_BYTES;
    if work.len() < bytes {
        return Err(Refusal::ListTooShort);
    }
    fill_bytes(work, 0, bytes, 0);
    let found = judge_keys(body, heads, mark, &free, work);
    fill_bytes(work, 0, bytes, 0);
    match found {
        Verdict::Good(lost) => Ok(judge_counts(body, heads, mark, &free, counts, desks, lost)),
        fault => Ok(fault),
    }
}
