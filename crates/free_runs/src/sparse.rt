// Windows with few freed pages: up to 4,096 of them are kept in the order in which they come, and the window ends where more would have
// to be kept. They stand in the words of the flags, since memory is fixed: so a count goes beside the words while pages are kept.
ghost use Rattle.std.specs.Prelude.{◌≡◌, ◌≤◌, ℕ, List, length};
ghost use Rattle.free_runs.specs.Freed.{pages_of};
ghost use Rattle.free_runs.specs.Steps.{Sought, ToScan};
ghost use Rattle.free_runs.specs.Sparse.{KeepsBelow, KeepsOne, MakesRoom, Collects, LeastFrom, begins_from};
ghost use Rattle.free_runs.specs.Sparse.{ToKeep, ToCollect};

use crate::flags::WINDOW;
use crate::list::FreedPages;
use scripthash_layout::SH_PAGE_BYTES;

// How many pages are kept, and the end of the window that they are all of.
#[derive(Clone, Copy)]
pub struct Room {
    pub count: usize,
    pub end: u64,
}

// Keeps only the pages below an end. Gives how many they are.
fn drop_behind(kept: &mut [u64; 4096], count: usize, end: u64) -> usize
    requires { count ≤ 4096 }
    ensures { KeepsBelow end kept.old count kept.new result }
{
    let mut stay: usize = 0;
    for i in 0..count {
        let page = kept[i];
        if page < end {
            kept[stay] = page;
            stay += 1;
        }
    }
    stay
}

// Takes an eighth off a window from a page on until not all of the 4,096 places are taken by pages of it. It ends where it begins if
// more than that lie in one that flags have room for.
fn make_room(kept: &mut [u64; 4096], count: usize, from: u64, end: u64) -> Room
    requires { ToKeep count from end }
    ensures { MakesRoom from end kept.old count kept.new result.count result.end }
{
    let mut count = count;
    let mut end = end;
    // Nothing is counted up: the turns end once a place is left.
    while count >= 4096 {
        if end - from <= WINDOW {
            return Room {
                count: 0,
                end: from,
            };
        }
        end -= (end - from) / 8;
        count = drop_behind(kept, count, end);
    }
    Room { count, end }
}

// Keeps a page too if it lies in the window, which may end earlier then.
fn keep(kept: &mut [u64; 4096], count: usize, from: u64, end: u64, page: u64) -> Room
    requires { ToKeep count from end }
    ensures { KeepsOne from end page kept.old count kept.new result.count result.end }
{
    if page < from || page >= end {
        return Room { count, end };
    }
    let mut room = make_room(kept, count, from, end);
    if page < room.end {
        kept[room.count] = page;
        room.count += 1;
    }
    room
}

// Walks a free list that was judged, and keeps the pages of a window from a page on, which ends at an end or earlier.
pub fn collect(list: &FreedPages, kept: &mut [u64; 4096], from: u64, end: u64) -> Room
    requires { ToCollect list.now from end }
    ensures { Collects (pages_of list.now) from end kept.new result.count result.end }
{
    let FreedPages {
        body,
        head,
        count,
        ..
    } = *list;
    let mut at = head;
    let mut room = Room { count: 0, end };
    for _walked in 0..count {
        room = keep(kept, room.count, from, room.end, at / SH_PAGE_BYTES);
        at = buffer::get_u64(body, at as usize);
    }
    room
}

// The least page kept from one on and below an end, or the end.
fn least_from(kept: &[u64], page: u64, end: u64) -> u64
    requires { page ≤ end }
    ensures { LeastFrom kept.now (length kept.now) page end result }
{
    let mut least = end - page;
    for x in kept {
        least = least.min(x.wrapping_sub(page));
    }
    page + least
}

// The first page from which a stretch can begin, where the pages from one up to a next one aren't freed.
fn begin(start: u64, page: u64, next: u64) -> u64
    ensures { result ≡ begins_from start page next }
{
    if page < next { next } else { start }
}

// Goes on with the search for so many pages over pages kept of a window from a page on. Gives the first page from which a stretch can
// begin.
pub fn scan_kept(kept: &[u64], from: u64, end: u64, start: u64, pages: u64) -> u64
    requires { ToScan from end start pages }
    ensures { (os : List ℕ) → Collects os from end kept.now (length kept.now) end
        → Sought pages from start os → Sought pages end result os }
{
    let mut start = start;
    let mut page = from;
    // The step isn't one: each turn goes on behind the next page kept.
    while page < end {
        let next = least_from(kept, page, end);
        start = begin(start, page, next);
        if next == end {
            return start;
        }
        page = next + 1;
        if page - start >= pages {
            return start;
        }
    }
    start
}
