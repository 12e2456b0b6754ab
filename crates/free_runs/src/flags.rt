// Flags of the pages of a window: those of a free list are set, and searched for a stretch.
ghost use Rattle.std.specs.Prelude.{◌≡◌, ℕ, ◌-◌, ◌<◌, List};
ghost use Rattle.free_runs.specs.Steps.{window_pages, set_flag, Flags, FlagsOne, FlagsList, Sought, ToScanFlags};

use crate::list::FreedPages;
use scripthash_layout::SH_PAGE_BYTES;

// The pages of a window, as `window_pages` says: 4,096 words have a flag for each.
pub const WINDOW: u64 = 262144;

// Sets a flag.
pub fn set_flag(words: &mut [u64; 4096], i: usize)
    requires { i < window_pages }
    ensures { words.new ≡ set_flag words.old i }
{
    let at = i / 64;
    let bit = i % 64;
    words[at] |= 1 << bit;
}

// Flags a page if it lies in the window from a page on. Gives the lower of it and the next one so far, if it lies behind the window.
fn flag_page(words: &mut [u64; 4096], from: u64, page: u64, next: u64) -> u64
    ensures { FlagsOne from page next words.old words.new result }
{
    if page < from {
        return next;
    }
    let i = page - from;
    if i >= WINDOW {
        return next.min(page);
    }
    set_flag(words, i as usize);
    next
}

// Walks a free list, and flags the pages that lie in the window from a page on. Gives a page, the mark's or below, before which no page
// behind the window is freed; or nothing, where the list doesn't pass.
// The walk is written out here, in `overlay_pages` and in `FreedPages::passes`: a closure for what is done with a page would be lent the
// words and the next page at once, and its promise would tell each step of the walk.
pub fn flag_pages(list: &FreedPages, words: &mut [u64; 4096], from: u64) -> Option<u64>
    ensures { FlagsList list.now from words.old words.new result }
{
    let FreedPages {
        body,
        mark,
        head,
        count,
    } = *list;
    let mut at = head;
    let mut next = mark / SH_PAGE_BYTES;
    for _walked in 0..count {
        if !scripthash_free::is_page(at, mark) {
            return None;
        }
        next = flag_page(words, from, at / SH_PAGE_BYTES, next);
        at = buffer::get_u64(body, at as usize);
    }
    (at == 0).then_some(next)
}

// Goes on with the search for so many pages over the flags of the pages from one on, up to an end. Gives the first page from which a
// stretch can begin: it is found where so many pages from there on are below the end.
pub fn scan(words: &[u64; 4096], from: u64, end: u64, start: u64, pages: u64) -> u64
    requires { ToScanFlags from end start pages }
    ensures { (os : List ℕ) → Flags words.now from (end - from) os → Sought pages from start os
        → Sought pages end result os }
{
    let mut start = start;
    let mut page = from;
    // The step isn't one: where a word has no flag left, its rest is passed over at once.
    while page < end {
        let i = page - from;
        let at = (i / 64) as usize;
        let bit = i % 64;
        let rest = words[at] >> bit;
        if rest == 0 {
            page = end.min(page + (64 - bit));
            start = page;
        } else {
            page += 1;
            if rest % 2 == 1 {
                if page - start >= pages {
                    return start;
                }
            } else {
                start = page;
            }
        }
    }
    start
}
