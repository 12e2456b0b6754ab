// Running calls, one by one: each is read from its words, done on the book, and its answer's words are written.
ghost use Rattle.std.specs.Prelude.{List, ◌≡◌, ℕ, ◌+◌, ◌≤◌, length, drop};
ghost use Rattle.std.proofs.Math.Option.{some};
ghost use Rattle.error.specs.Refusal.{answered};
ghost use Rattle.book_desks.specs.Desks.{desk_of};
ghost use Rattle.book_words.specs.Spelled as Calls;
ghost use Rattle.book_words.specs.Spelled.{SpelledCall, listed};
ghost use Rattle.book_read.specs.Reads.{reads};
ghost use Rattle.book.specs.Answers.{book_of};
ghost use Rattle.book_words.specs.Words.{Begins};
ghost use Rattle.book_words.specs.SpellCalls.{call_at, calls_of};
ghost use Rattle.book_calls.specs.Steps.{Answered, Done, CallHere, Spelled, AllDone};

use crate::answers::{put_append, put_drop, put_load, put_read};
use crate::words::{APPEND, READ, fit_of, is_load, next_call};
use book_desks::desk_of;
use book_rules::SlabFit;

// Loads a list onto a key, for its desk.
fn run_load(
    body: &mut [u8],
    heads: &mut [u64],
    mark: &mut u64,
    free: &mut [u64; 9],
    counts: &mut [u64; 49],
    desks: &[u8],
    fit: SlabFit,
    key: u64,
    numbers: &[u64],
    out: &mut [u64],
) -> usize
    requires { 3 ≤ length out.old }
    ensures { Done desks.now (book_of body.old heads.old mark.old free.old
        counts.old)
        (Calls.load fit key numbers.now) out.old
        (book_of body.new heads.new mark.new free.new counts.new) out.new result }
{
    let desk = desk_of(desks, key);
    let answer = book_load::load(body, heads, mark, free, counts, desk, fit, key, numbers);
    put_load(out, answer)
}

// Appends a number to a key, for its desk.
fn run_append(
    body: &mut [u8],
    heads: &mut [u64],
    mark: &mut u64,
    free: &mut [u64; 9],
    counts: &mut [u64; 49],
    desks: &[u8],
    key: u64,
    n: u64,
    out: &mut [u64],
) -> usize
    requires { 7 ≤ length out.old }
    ensures { Done desks.now (book_of body.old heads.old mark.old free.old
        counts.old)
        (Calls.append key n) out.old
        (book_of body.new heads.new mark.new free.new counts.new) out.new result }
{
    let desk = desk_of(desks, key);
    let answer = book_append::append(body, heads, mark, free, counts, desk, key, n);
    put_append(out, answer)
}

// Drops a key, for its desk.
fn run_drop(
    body: &mut [u8],
    heads: &mut [u64],
    mark: &mut u64,
    free: &mut [u64; 9],
    counts: &mut [u64; 49],
    desks: &[u8],
    key: u64,
    out: &mut [u64],
) -> usize
    requires { 3 ≤ length out.old }
    ensures { Done desks.now (book_of body.old heads.old mark.old free.old
        counts.old)
        (Calls.drop key) out.old
        (book_of body.new heads.new mark.new free.new counts.new) out.new result }
{
    let desk = desk_of(desks, key);
    let answer = book_drop::drop(body, heads, mark, free, counts, desk, key);
    put_drop(out, answer)
}

// Reads a key: its list goes behind the four words of the answer, with the room that was asked for.
fn run_read(body: &[u8], heads: &[u64], mark: u64, key: u64, room: usize, out: &mut [u64]) -> usize
    requires { 5 + room ≤ length out.old }
    ensures { (free counts : List ℕ)
        → Answered (answered listed (reads (book_of body.now heads.now mark free counts) key room)) out.old
        out.new result }
{
    let end = 5 + room;
    let answer = book_read::read(body, heads, mark, key, &mut out[5..end]);
    put_read(out, answer)
}

// Runs the call whose words begin at an index, and tells how many words its answer has.
fn run_call(
    body: &mut [u8],
    heads: &mut [u64],
    mark: &mut u64,
    free: &mut [u64; 9],
    counts: &mut [u64; 49],
    desks: &[u8],
    calls: &[u64],
    at: usize,
    out: &mut [u64],
) -> usize
    requires { CallHere calls.now at (length out.old) }
    ensures { (b : Begins SpelledCall) → call_at (drop at calls.now) ≡ some b
        → Done desks.now (book_of body.old heads.old mark.old free.old
        counts.old) b.first out.old
        (book_of body.new heads.new mark.new free.new counts.new) out.new result }
{
    let kind = calls[at];
    let key = calls[at + 1];
    let third = calls[at + 2];
    if is_load(kind) {
        let fit = fit_of(kind);
        let from = at + 3;
        let end = from + third as usize;
        return run_load(
            body,
            heads,
            mark,
            free,
            counts,
            desks,
            fit,
            key,
            &calls[from..end],
            out,
        );
    }
    if kind == APPEND {
        return run_append(body, heads, mark, free, counts, desks, key, third, out);
    }
    if kind == READ {
        return run_read(body, heads, *mark, key, third as usize, out);
    }
    run_drop(body, heads, mark, free, counts, desks, key, out)
}

// Runs all calls that some words spell, whose answers have room, and tells how many words these have.
pub fn run_spelled(
    body: &mut [u8],
    heads: &mut [u64],
    mark: &mut u64,
    free: &mut [u64; 9],
    counts: &mut [u64; 49],
    desks: &[u8],
    calls: &[u64],
    out: &mut [u64],
) -> usize
    requires { Spelled calls.now (length out.old) }
    ensures { (cs : List SpelledCall) → calls_of calls.now ≡ some cs
        → AllDone desks.now (book_of body.old heads.old mark.old free.old
        counts.old) cs out.old
        (book_of body.new heads.new mark.new free.new counts.new) out.new result }
{
    let mut at: usize = 0;
    let mut to: usize = 0;
    // The step isn't one: each turn goes on by the words of a call, so no range counts it.
    while at < calls.len() {
        let Some(behind) = next_call(calls, at) else {
            return to;
        };
        to += run_call(
            body,
            heads,
            mark,
            free,
            counts,
            desks,
            calls,
            at,
            &mut out[to..],
        );
        at = behind;
    }
    to
}
