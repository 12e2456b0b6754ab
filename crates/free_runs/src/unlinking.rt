// Taking the pages of a run out of the list of freed pages: the others keep their order, and only links that change are written.
ghost use Rattle.std.specs.Prelude.{◌≡◌, ◌≤◌, true, length};
ghost use Rattle.free_runs.specs.Runs.{left_of};
ghost use Rattle.free_runs.specs.PageList.{walked, pages_end, top_of, relinked};
ghost use Rattle.free_runs.specs.Freed.{passes};
ghost use Rattle.free_runs.specs.Steps.{PassedOver, ToRelink};
ghost use Rattle.buffer.specs.Bytes.{overwrite};
ghost use Rattle.buffer.specs.LittleEndian.{bytes_of};

use crate::list::FreedPages;

// A place in a free list: an offset, 0 at the end, and how many pages the list has from there on.
#[derive(Clone, Copy)]
struct Place {
    at: u64,
    left: u64,
}

// The first place of a free list that was judged whose page lies outside a run.
fn pass_over(list: &FreedPages, from: u64, end: u64) -> Place
    requires { passes list.now ≡ true }
    ensures { PassedOver
        list.now.mark list.now.body.now from end list.now.head list.now.count result.at result.left }
{
    let mut at = list.head;
    for passed in 0..list.count {
        if at < from || at >= end {
            return Place {
                at,
                left: list.count - passed,
            };
        }
        at = buffer::get_u64(list.body, at as usize);
    }
    Place { at, left: 0 }
}

// Links a freed page to another, where its link is another one so far.
fn relink(body: &mut [u8], at: u64, link: u64, to: u64)
    requires { ToRelink body.old at link }
    ensures { body.new ≡ overwrite body.old at (bytes_of 8 to) }
{
    if link != to {
        buffer::put_u64(body, at as usize, to);
    }
}

// Takes the pages of a run out of a free list that was judged: writes the links of the pages whose successor goes. Gives the new head.
pub fn unlink(body: &mut [u8], mark: u64, head: u64, count: u64, from: u64, end: u64) -> u64
    requires { (mark ≤ length body.old) × (pages_end mark count body.old head ≡ true) }
    ensures top { result ≡ top_of (left_of from end (walked count body.old head)) }
    ensures links { body.new ≡ relinked (left_of from end (walked count body.old head)) body.old }
{
    let list = FreedPages {
        body: &*body,
        mark,
        head,
        count,
    };
    let first = pass_over(&list, from, end);
    let top = first.at;
    let mut at = first.at;
    let mut left = first.left;
    // The step isn't one: each turn goes on behind the pages of the run that it passed over.
    while left > 0 {
        let link = buffer::get_u64(body, at as usize);
        let rest = FreedPages {
            body: &*body,
            mark,
            head: link,
            count: left - 1,
        };
        let over = pass_over(&rest, from, end);
        let to = over.at;
        relink(body, at, link, to);
        at = to;
        left = over.left;
    }
    top
}
