// A run of pages in a body: the parts of a list, each in a page that is linked to the next, the last with the run as its extent.
ghost use Rattle.std.specs.Prelude.{◌≡◌, length};
ghost use Rattle.scripthash_cutting.specs.Cutting.{cutting};
ghost use Rattle.book_blocks.specs.Blocks.{write_run};
ghost use Rattle.book_blocks.specs.Steps.{Run};

use crate::page::{put_last_page, put_page_to};
use scripthash_cutting::ChunkRange;
use scripthash_layout::SH_PAGE_SIZE;

// Writes a list to the pages of a run from an offset of a body on, by the ranges of its parts. The last part is what is left of the list.
pub fn put_run(body: &mut [u8], start: usize, fks: &[u64], ranges: &[ChunkRange], count: usize)
    requires { Run (length body.old) start fks.now ranges.now count }
    ensures { body.new
        ≡ write_run start count (length fks.now) body.old start (cutting fks.now) }
{
    let mut off = start;
    let mut from: usize = 0;
    let mut k: usize = 0;
    while k + 1 < count {
        let range = ranges[k];
        let to = range[1];
        let next = off + SH_PAGE_SIZE;
        put_page_to(body, off, &fks[from..to], next as u64);
        off = next;
        from = to;
        k += 1;
    }
    let first = start as u64;
    put_last_page(
        body,
        off,
        &fks[from..],
        first,
        first,
        count as u32,
        fks.len() as u32,
    );
}
