// Where forms end: bytes below 128 are counted, many at a time in plain loops, of which the compiler makes loops over many bytes at a time,
// and at last byte by byte.
ghost use Rattle.std.specs.Prelude.{◌≡◌, ◌+◌, ◌*◌, ◌≤◌, ◌<◌, length, IfSome, sum_by};
ghost use Rattle.scripthash_words.specs.Words.{end_one};
ghost use Rattle.scripthash_scan.specs.Weights.{total_over, end_at, Counts};

// The most bytes that are looked at together: 15 rows of 16, so that a count of them fits a byte.
const BLOCK: usize = 240;

// The least forms that end in so many bytes; where they are fewer, forms of six bytes and more are among them.
const LEAST_ENDS: usize = 40;

// The place up to which forms were counted, and how many are still to end.
#[derive(Clone, Copy)]
struct Counted {
    at: usize,
    left: usize,
}

// The same, and how many forms end in each 16 bytes.
#[derive(Clone, Copy)]
struct Counting {
    counted: Counted,
    dense: usize,
}

// 1 where a byte ends its form, else 0.
fn ended(b: u8) -> u8
    ensures { (result ≡ end_one b) × (result ≤ 1) }
{
    u8::from(b < 128)
}

// How many forms end in at most 240 bytes.
fn ends_in(bytes: &[u8]) -> u8
    requires { length bytes.now ≤ 240 }
    ensures sum { result ≡ sum_by end_one bytes.now }
    ensures few { result ≤ length bytes.now }
{
    bytes.iter().map(|b| ended(*b)).sum()
}

// How many forms end early in a stream, in 16 bytes of it; 0 where it is short.
pub fn ends_early(buf: &[u8]) -> usize {
    if buf.len() < 24 {
        return 0;
    }
    usize::from(ends_in(&buf[8..24]))
}

// Counts forms that end from a place on, 240 bytes at a time, until fewer than 240 of those wanted are left; stops before where too few
// bytes follow, or where forms of six bytes and more are met.
#[tactic(auto, using(crate::proofs::LawsTotals::ends_between))]
fn count_blocks(buf: &[u8], from: usize, want: usize) -> Counted
    requires { from ≤ length buf.now }
    ensures { Counts buf.now from want result.at result.left }
{
    let mut at = from;
    let mut left = want;
    // How many blocks there are is told by the forms that end in them, so no range counts them.
    while BLOCK <= left {
        if buf.len() - at < BLOCK {
            return Counted { at, left };
        }
        let count = usize::from(ends_in(&buf[at..at + BLOCK]));
        if count < LEAST_ENDS {
            return Counted { at, left };
        }
        left -= count;
        at += BLOCK;
    }
    Counted { at, left }
}

// How many bytes to look at together where so many forms are left, and so many ended in each 16 bytes before. Where each byte ended one, no
// more bytes than forms, so that the last of them isn't passed; else some less than they would take.
fn step_of(left: usize, dense: usize) -> usize
    requires { (16 ≤ left) × (0 < dense) }
    ensures { (16 ≤ result) × (result ≤ 240) × (16 ≤ dense → result ≤ left) }
{
    if BLOCK <= left {
        return BLOCK;
    }
    if 16 <= dense {
        return left / 16 * 16;
    }
    (left * 14 / dense / 16 * 16).clamp(16, BLOCK)
}

// How many forms end in each 16 bytes, where so many end in a step.
fn density(count: usize, step: usize) -> usize
    requires { (count ≤ 240) × (0 < step) }
    ensures { result ≤ 16 }
{
    (16 * count / step).min(16)
}

// Where a step was too long: the same place, and forms taken to be as dense as can be; none where they were.
fn shorter(counted: Counted, dense: usize) -> Option<Counting>
    ensures { IfSome result (λ c. (c.counted ≡ counted) × (c.dense ≡ 16) × (dense < 16)) }
{
    if 16 <= dense {
        return None;
    }
    Some(Counting { counted, dense: 16 })
}

// Counts forms that end in one step. Where the last of those left ends in it, or too few bytes follow, the next step is a shorter one, or
// there is none; nor is there where forms of six bytes and more are met.
#[tactic(auto, using(crate::proofs::LawsTotals::ends_between))]
fn stepped(buf: &[u8], counted: Counted, dense: usize) -> Option<Counting>
    requires { (counted.at ≤ length buf.now) × (16 ≤ counted.left) × (0 < dense) × (dense ≤ 16) }
    ensures { IfSome result (λ c. Counts buf.now counted.at counted.left c.counted.at c.counted.left
        × (0 < c.dense) × (c.dense ≤ 16) × (32 * counted.at + dense < 32 * c.counted.at + c.dense)) }
{
    let step = step_of(counted.left, dense);
    if buf.len() - counted.at < step {
        return shorter(counted, dense);
    }
    let at = counted.at + step;
    let count = usize::from(ends_in(&buf[counted.at..at]));
    if counted.left < count || (counted.left == count && dense < 16) {
        return shorter(counted, dense);
    }
    let dense = density(count, step);
    if dense < 3 {
        return None;
    }
    let left = counted.left - count;
    Some(Counting {
        counted: Counted { at, left },
        dense,
    })
}

// Counts forms that end from a place on, until fewer than 16 of those wanted are left; stops before where too few bytes follow, or where
// forms of six bytes and more are met.
fn count_forms(buf: &[u8], from: usize, want: usize) -> Counted
    requires { from ≤ length buf.now }
    ensures { Counts buf.now from want result.at result.left }
{
    let mut counted = Counted {
        at: from,
        left: want,
    };
    let mut dense: usize = 16;
    // A step is as long as the forms before it tell, so no range counts the steps.
    while 16 <= counted.left {
        let Some(next) = stepped(buf, counted, dense) else {
            return counted;
        };
        counted = next.counted;
        dense = next.dense;
    }
    counted
}

// The place behind so many forms from another place on, or none where the bytes end first or the forms are long.
#[tactic(auto, using(crate::proofs::LawsTotals::total_next))]
pub fn end_of(buf: &[u8], from: usize, want: usize) -> Option<usize>
    requires { from ≤ length buf.now }
    ensures { IfSome result (λ at. Counts buf.now from want at 0) }
{
    let blocks = count_blocks(buf, from, want);
    let few = count_forms(buf, blocks.at, blocks.left);
    if 16 <= few.left {
        return None;
    }
    let mut left = few.left;
    for at in few.at..buf.len() {
        if left == 0 {
            return Some(at);
        }
        left -= usize::from(ended(buf[at]));
    }
    if left == 0 { Some(buf.len()) } else { None }
}
