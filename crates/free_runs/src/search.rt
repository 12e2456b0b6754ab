// The search of the list of freed pages: the list is judged, and the lowest stretch of so many pages side by side is found, a window at
// a time.
ghost use Rattle.std.specs.Prelude.{◌≡◌};
ghost use Rattle.free_runs.specs.PageList.{run_sought, ToSeek};
ghost use Rattle.free_runs.specs.Freed.{passes};
ghost use Rattle.free_runs.specs.Steps.{LooksAt, ToLook, ToLookFar, ToLookOn};
ghost use Rattle.free_runs.specs.Answers.{found_answer};

use crate::flags::{WINDOW, flag_pages, scan};
use crate::list::FreedPages;
use crate::overlaid::rule_out;
use crate::sparse::{Room, collect, scan_kept};
use error::Refusal;
use scripthash_layout::SH_PAGE_BYTES;

impl FreedPages<'_> {
    // Tells whether the list has so many pages, each of which can stand below the mark, and ends then.
    fn passes(&self) -> bool
        ensures { result ≡ passes self.now }
    {
        let mut at = self.head;
        for _walked in 0..self.count {
            if !scripthash_free::is_page(at, self.mark) {
                return false;
            }
            at = buffer::get_u64(self.body, at as usize);
        }
        at == 0
    }
}

// What the look at a window of a list that passes gives: the window's end, the first page from which a stretch can begin, and one before
// which no page behind the window is freed.
#[derive(Clone, Copy)]
struct Looked {
    end: u64,
    start: u64,
    next: u64,
}

// Looks at the window from a page on that the flags have room for. Gives nothing where the list doesn't pass.
fn look_near(
    list: &FreedPages,
    words: &mut [u64; 4096],
    from: u64,
    start: u64,
    pages: u64,
) -> Option<Looked>
    requires { ToLook list.now from start pages }
    ensures { LooksAt list.now from start pages result }
{
    words.fill(0);
    let end = (from + WINDOW).min(list.mark / SH_PAGE_BYTES);
    let next = flag_pages(list, words, from)?;
    let start = scan(words, from, end, start, pages);
    Some(Looked { end, start, next })
}

// Looks at a window with few pages of a list that was judged, from a page on: by flags where they are too many to be kept.
fn look_far(
    list: &FreedPages,
    words: &mut [u64; 4096],
    from: u64,
    start: u64,
    pages: u64,
) -> Option<Looked>
    requires { ToLookFar list.now from start pages }
    ensures { LooksAt list.now from start pages result }
{
    let Room { count, end } = collect(list, words, from, list.mark / SH_PAGE_BYTES);
    if end <= from {
        return look_near(list, words, from, start, pages);
    }
    let start = scan_kept(&words[..count], from, end, start, pages);
    Some(Looked {
        end,
        start,
        next: end,
    })
}

// Looks at a window from a page on. The first one judges the list. The others keep pages where a window of flags would have few.
fn look(
    list: &FreedPages,
    words: &mut [u64; 4096],
    from: u64,
    start: u64,
    pages: u64,
) -> Option<Looked>
    requires { ToLookOn list.now from start pages }
    ensures { LooksAt list.now from start pages result }
{
    if from == 0 || list.count >= (list.mark / SH_PAGE_BYTES - from) / 64 {
        return look_near(list, words, from, start, pages);
    }
    look_far(list, words, from, start, pages)
}

// Finds the lowest stretch of so many pages, one or more, in a free list, window by window.
fn search_windows(
    list: &FreedPages,
    words: &mut [u64; 4096],
    pages: u64,
) -> Result<Option<u64>, Refusal>
    requires { ToSeek list.now.mark list.now.body.now pages }
    ensures { found_answer result
        ≡ run_sought list.now.mark list.now.count list.now.body.now list.now.head pages }
{
    let limit = list.mark / SH_PAGE_BYTES;
    let mut from: u64 = 0;
    let mut start: u64 = 0;
    // The step isn't one: each turn goes on behind the window that was looked at, or at the next freed page.
    while from < limit {
        let Some(got) = look(list, words, from, start, pages) else {
            return Err(Refusal::FreeListBad);
        };
        let Looked {
            end,
            start: first,
            next,
        } = got;
        if end - first >= pages {
            return Ok(Some(first * SH_PAGE_BYTES));
        }
        if end < next {
            start = next;
            from = next;
        } else {
            start = first;
            from = end;
        }
    }
    Ok(None)
}

// Finds the lowest stretch of so many pages, one or more, in a free list. In a body that one window doesn't cover, it is looked for in all
// windows laid over each other first, which can rule it out.
fn find_run(list: &FreedPages, pages: u64) -> Result<Option<u64>, Refusal>
    requires { ToSeek list.now.mark list.now.body.now pages }
    ensures { found_answer result
        ≡ run_sought list.now.mark list.now.count list.now.body.now list.now.head pages }
{
    let mut words = [0u64; 4096];
    if list.mark / SH_PAGE_BYTES <= WINDOW {
        return search_windows(list, &mut words, pages);
    }
    let Some(none) = rule_out(list, &mut words, pages) else {
        return Err(Refusal::FreeListBad);
    };
    if none {
        return Ok(None);
    }
    search_windows(list, &mut words, pages)
}

// Finds the lowest stretch of so many pages, one or more, in a free list of so many pages. A list that is shorter is only judged, and one
// of as many pages as lie below the mark doesn't pass: no walk takes as many steps as that.
pub fn seek_run(
    body: &[u8],
    mark: u64,
    head: u64,
    count: u64,
    pages: u64,
) -> Result<Option<u64>, Refusal>
    requires { ToSeek mark body.now pages }
    ensures { found_answer result ≡ run_sought mark count body.now head pages }
{
    if count >= mark / SH_PAGE_BYTES {
        return Err(Refusal::FreeListBad);
    }
    let list = FreedPages {
        body,
        mark,
        head,
        count,
    };
    if count >= pages {
        return find_run(&list, pages);
    }
    if list.passes() {
        return Ok(None);
    }
    Err(Refusal::FreeListBad)
}
