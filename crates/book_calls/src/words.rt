// The words of a list of calls: where each call begins, whether they spell calls at all, and whether the answers have room.
ghost use Rattle.std.specs.Prelude.{true, List, ◌≡◌, ◌≤◌, leb, length, drop};
ghost use Rattle.std.proofs.Math.Option.{some};
ghost use Rattle.book_words.specs.Spelled.{SpelledCall};
ghost use Rattle.book_words.specs.SpellCalls.{is_load, fit_of, call_at, calls_of, answers_room};
ghost use Rattle.book_calls.specs.Steps.{is_some, NextIs, need_of, RoomIs};

use book_rules::SlabFit;

// The kinds of calls, by the first word of each.
pub const LOAD: u64 = 0;

pub const APPEND: u64 = 1;

pub const READ: u64 = 2;

pub const DROP: u64 = 3;

pub const LOAD_TIGHT: u64 = 4;

// Whether a kind is that of a load, whose numbers stand behind its third word.
pub fn is_load(kind: u64) -> bool
    ensures { result ≡ is_load kind }
{
    if kind == LOAD {
        return true;
    }
    kind == LOAD_TIGHT
}

// The rule for the slab of a load of a kind.
pub fn fit_of(kind: u64) -> SlabFit
    ensures { result ≡ fit_of kind }
{
    if kind == LOAD {
        return SlabFit::Spare;
    }
    SlabFit::Tight
}

// Where the call behind the one at an index begins; nowhere where no call begins at the index.
pub fn next_call(calls: &[u64], at: usize) -> Option<usize>
    requires { at ≤ length calls.now }
    ensures { NextIs calls.now at (call_at (drop at calls.now)) result }
{
    if calls.len() - at < 3 {
        return None;
    }
    let kind = calls[at];
    let third = calls[at + 2];
    let from = at + 3;
    if is_load(kind) {
        if ((calls.len() - from) as u64) < third {
            return None;
        }
        return Some(from + third as usize);
    }
    if DROP < kind {
        return None;
    }
    if kind == DROP {
        if third != 0 {
            return None;
        }
    }
    Some(from)
}

// Whether some words spell a list of calls.
pub fn calls_spelled(calls: &[u64]) -> bool
    ensures { result ≡ is_some (calls_of calls.now) }
{
    let mut at: usize = 0;
    // The step isn't one: each turn goes on by the words of a call, so no range counts it.
    while at < calls.len() {
        let Some(behind) = next_call(calls, at) else {
            return false;
        };
        at = behind;
    }
    true
}

// The room that is left behind the answer to a call of a kind with a third word, a read's room counted in full; none where the answer may
// have more words than there is room for.
fn room_behind(kind: u64, third: u64, left: u64) -> Option<u64>
    ensures { RoomIs (need_of kind third) left result }
{
    if kind == READ {
        if left < 5 {
            return None;
        }
        if left - 5 < third {
            return None;
        }
        return Some(left - 5 - third);
    }
    if kind == APPEND {
        if left < 7 {
            return None;
        }
        return Some(left - 7);
    }
    if left < 3 {
        return None;
    }
    Some(left - 3)
}

// Whether the answers to the calls that some words spell have room, however long they are.
pub fn calls_fit(calls: &[u64], room: usize) -> bool
    requires { is_some (calls_of calls.now) ≡ true }
    ensures { (cs : List SpelledCall) → calls_of calls.now ≡ some cs → result ≡ leb (answers_room cs) room }
{
    let mut left = room as u64;
    let mut at: usize = 0;
    // The step isn't one: each turn goes on by the words of a call, so no range counts it.
    while at < calls.len() {
        let Some(behind) = next_call(calls, at) else {
            return false;
        };
        let Some(rest) = room_behind(calls[at], calls[at + 2], left) else {
            return false;
        };
        left = rest;
        at = behind;
    }
    true
}
