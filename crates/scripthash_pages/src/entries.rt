// The stream of a page: read whole or to its end. It starts at byte 8, in version 2 at byte 24, and goes to the page's end.
ghost use Rattle.std.specs.Prelude.{◌≡◌, ◌≤◌, IfOk, length};
ghost use Rattle.error.specs.Refusal.{answered};
ghost use Rattle.scripthash_stream.specs.Stream.{end_from, after_decode};
ghost use Rattle.scripthash_stream.specs.Answers.{scan_answer};
ghost use Rattle.scripthash_pages.specs.EntryAnswers.{last_fk_answer, entries_answer, slice_answer};
ghost use Rattle.scripthash_pages.specs.Entries.{stream_place, page_scan, last_of, page_entries, entries_read_of, page_read_of};
ghost use Rattle.scripthash_pages.specs.Answers.{stream_place_answer};

use crate::answers::{PageEntries, PageSlice};
use error::Refusal;
use scripthash_fields::{SH_PAGE_OFF_N_FKS, sh_page_require_delta, stream_off};
use scripthash_stream::Scanned;

// Where a page's stream starts and how many numbers it has.
#[derive(Clone, Copy, Debug, PartialEq, Eq)]
pub struct StreamPlace {
    pub off: usize,
    pub count: usize,
}

// The place of a page's stream, where the page can be read.
#[tactic(auto, unfolding(crate::specs::Entries::stream_place, scripthash_fields::specs::Fields::require_delta, scripthash_fields::specs::Page::field, error::specs::Refusal::refuse_if))]
fn stream_place(page: &[u8]) -> Result<StreamPlace, Refusal>
    ensures within { IfOk result (λ place. place.off ≤ length page.now) }
    ensures answer { stream_place_answer result ≡ stream_place page.now }
{
    sh_page_require_delta(page)?;
    Ok(StreamPlace {
        off: stream_off(page),
        count: buffer::get_u16(page, SH_PAGE_OFF_N_FKS) as usize,
    })
}

// Scans the stream of a page: how many bytes it takes, and its last number, 0 where it has none.
#[tactic(auto, unfolding(crate::specs::Entries::page_scan, error::specs::Refusal::and_then, error::specs::Refusal::answered))]
pub fn sh_page_stream_tail(page: &[u8]) -> Result<Scanned, Refusal>
    ensures { scan_answer result ≡ answered (end_from 0) (page_scan page.now) }
{
    let place = stream_place(page)?;
    scripthash_scan::scan_fk_delta_stream(&page[place.off..], place.count)
}

// The last number of a page, 0 where it has none.
#[tactic(auto, unfolding(error::specs::Refusal::answered))]
pub fn sh_page_last_fk(page: &[u8]) -> Result<u64, Refusal>
    ensures { last_fk_answer result ≡ answered last_of (page_scan page.now) }
{
    let tail = sh_page_stream_tail(page)?;
    Ok(tail.last)
}

// Reads the numbers of a page into the start of out, and counts them and the padded ones; out is left as it is where the page is refused.
#[tactic(auto, using(crate::proofs::LawsEntries::entries_no), unfolding(scripthash_stream::specs::Stream::after_decode, error::specs::Refusal::answered))]
pub fn sh_page_entries_into(page: &[u8], out: &mut [u64]) -> Result<PageEntries, Refusal>
    ensures answer { entries_answer result
        ≡ answered (entries_read_of page.now) (page_entries (length out.old) page.now) }
    ensures list { out.new ≡ after_decode out.old (page_entries (length out.old) page.now) }
{
    let place = stream_place(page)?;
    let read = scripthash_scan::decode_fk_delta_stream_into(&page[place.off..], place.count, out)?;
    Ok(PageEntries {
        count: place.count,
        padded: read.padded,
    })
}

// Reads the numbers of a page as above, and where the page behind it is.
#[tactic(auto, using(crate::proofs::LawsEntries::entries_long), unfolding(crate::specs::Entries::page_read_of, crate::specs::Entries::entries_read_of, error::specs::Refusal::refuse_if, error::specs::Refusal::and_then, error::specs::Refusal::answered))]
pub fn sh_page_decode_slice_into(page: &[u8], out: &mut [u64]) -> Result<PageSlice, Refusal>
    ensures answer { slice_answer result
        ≡ answered (page_read_of page.now) (page_entries (length out.old) page.now) }
    ensures list { out.new ≡ after_decode out.old (page_entries (length out.old) page.now) }
{
    let read = sh_page_entries_into(page, out)?;
    Ok(PageSlice {
        count: read.count,
        next: scripthash_fields::next_off(page),
        padded: read.padded,
    })
}
