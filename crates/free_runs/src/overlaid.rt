// All windows of a body laid over each other: a flag is set where a page of any of them is freed. So many pages side by side set as many
// flags side by side, the first flag being behind the last, and where there are fewer no stretch is freed.
ghost use Rattle.free_runs.specs.Overlaid.{OverlaysList, RulesOut, ToRuleOut};

use crate::flags::{WINDOW, scan, set_flag};
use crate::list::FreedPages;
use scripthash_layout::SH_PAGE_BYTES;

// Walks a free list, and flags each page. Tells whether the list passes.
fn overlay_pages(list: &FreedPages, words: &mut [u64; 4096]) -> bool
    ensures { OverlaysList list.now words.old words.new result }
{
    let FreedPages {
        body,
        mark,
        head,
        count,
    } = *list;
    let mut at = head;
    for _walked in 0..count {
        if !scripthash_free::is_page(at, mark) {
            return false;
        }
        let page = at / SH_PAGE_BYTES % WINDOW;
        set_flag(words, page as usize);
        at = buffer::get_u64(body, at as usize);
    }
    at == 0
}

// Looks for so many flags side by side, twice round. Tells whether no stretch is freed; or nothing, where the list doesn't pass.
pub fn rule_out(list: &FreedPages, words: &mut [u64; 4096], pages: u64) -> Option<bool>
    requires { ToRuleOut words.old pages }
    ensures { RulesOut list.now pages result }
{
    if !overlay_pages(list, words) {
        return None;
    }
    if pages > WINDOW {
        return Some(false);
    }
    let first = scan(words, 0, WINDOW, 0, pages);
    if WINDOW - first >= pages {
        return Some(false);
    }
    let second = scan(words, WINDOW, 2 * WINDOW, first, pages);
    Some(2 * WINDOW - second < pages)
}
