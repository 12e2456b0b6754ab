// A key's pages: whether the last one, or the whole chain, is sound, and the chain's numbers.
// Sizes and numbers of 64 bits are cast with `as`, since Rust has no From between them: each cast is proved to fit.
ghost use Rattle.std.specs.Prelude.{◌≡◌, ◌+◌, ◌/◌, ◌≤◌, length, get_or};
ghost use Rattle.error.specs.Refusal.{accepted, answered};
ghost use Rattle.buffer.specs.Bytes.{part};
ghost use Rattle.scripthash_layout.specs.Sizes.{page_size};
ghost use Rattle.scripthash_layout.specs.declared.head.ShHeadValue.TheVariants.{Extent};
ghost use Rattle.scripthash_fields.specs.Page.{link_of, link_offset, stream_off};
ghost use Rattle.scripthash_stream.specs.Stream.{Scan};
ghost use Rattle.scripthash_pages.specs.Entries.{page_scan, page_entries, page_padded};
ghost use Rattle.book_keys.specs.Keys.{soundly, page_at, link_scan, last_at, walk, Chain as ChainIs, total_good, chain_at};
ghost use Rattle.book_keys.specs.Keys.{tail_at, content_at, body_ground};
ghost use Rattle.book_keys.specs.Steps.{link_read, last_read, tail_read, tail_end_of, link_end_of, walked_from, chain_end_of, if_asked};
ghost use Rattle.book_keys.specs.Steps.{page_into, PageFilled, Written, KeyRead};
ghost use Rattle.book_keys.specs.Answers.{last_page_answer, tail_answer, link_end_answer, walk_answer, chain_answer};
ghost use Rattle.book_keys.specs.Answers.{fill_answer, counts_answer};

use crate::key::KeyCounts;
use crate::slab::sound_last;
use error::Refusal;
use scripthash_fields::{
    PageLink, SH_PAGE_EXTENT_VER, SH_PAGE_OFF_EXTENT_BASE, SH_PAGE_OFF_EXTENT_CREATES,
    SH_PAGE_OFF_EXTENT_N, SH_PAGE_OFF_N_FKS, SH_PAGE_OFF_PACKED, SH_PAGE_OFF_VER,
};
use scripthash_free::is_page;
use scripthash_layout::{SH_PAGE_BYTES, SH_PAGE_SIZE};
use scripthash_pages::sh_page_stream_tail;
use scripthash_stream::Scanned;

// The header of a key's last page: the first page's offset, and how many numbers the key has, or 0, unknown.
#[derive(Clone, Copy, Debug, PartialEq, Eq)]
pub struct LastPage {
    pub first: u64,
    pub creates: u32,
}

// What an append is told of a key's last page: the bytes that its stream takes, its last number, and its header.
#[derive(Clone, Copy, Debug, PartialEq, Eq)]
pub struct TailEnd {
    pub taken: usize,
    pub fk: u64,
    pub first: u64,
    pub creates: u32,
}

// A page of a chain: how many numbers it has, its last number, whether it is LAST, the offset that its link names, and how many of the
// numbers are padded, where that is asked for.
#[derive(Clone, Copy, Debug, PartialEq, Eq)]
pub struct LinkEnd {
    pub count: u64,
    pub fk: u64,
    pub last: bool,
    pub next: u64,
    pub padded: u64,
}

// A sound chain: its first page's offset, how many numbers it has, how many pages, and how many of the numbers are padded, where that is
// asked for.
#[derive(Clone, Copy, Debug, PartialEq, Eq)]
pub struct ChainEnd {
    pub first: u64,
    pub length: u64,
    pub pages: u64,
    pub padded: u64,
}

// A page whose numbers were written out: how many they are, and the offset of the page behind it.
#[derive(Clone, Copy, Debug, PartialEq, Eq)]
struct PageFill {
    count: usize,
    next: u64,
}

// Reads the header of a key's last page.
fn read_last(page: &[u8]) -> Result<LastPage, Refusal>
    requires { length page.now ≡ page_size }
    ensures { last_page_answer result ≡ soundly (last_read page.now) }
{
    if page[SH_PAGE_OFF_VER] != SH_PAGE_EXTENT_VER {
        return Err(Refusal::KeyUnsound);
    }
    let Ok(first) = scripthash_fields::sh_page_first_off(page) else {
        return Err(Refusal::KeyUnsound);
    };
    let base = buffer::get_u64(page, SH_PAGE_OFF_EXTENT_BASE);
    let n = buffer::get_u32(page, SH_PAGE_OFF_EXTENT_N);
    let Ok(()) = scripthash_fields::check_extent(base, n) else {
        return Err(Refusal::KeyUnsound);
    };
    let creates = buffer::get_u32(page, SH_PAGE_OFF_EXTENT_CREATES);
    Ok(LastPage { first, creates })
}

// Reads a key's last page as an append looks at it.
fn read_tail(page: &[u8]) -> Result<TailEnd, Refusal>
    requires { length page.now ≡ page_size }
    ensures { tail_answer result ≡ answered tail_end_of (soundly (tail_read page.now)) }
{
    let LastPage { first, creates } = read_last(page)?;
    let Ok(Scanned { taken, last }) = sh_page_stream_tail(page) else {
        return Err(Refusal::KeyUnsound);
    };
    if !sound_last(last) {
        return Err(Refusal::KeyUnsound);
    }
    Ok(TailEnd {
        taken,
        fk: last,
        first,
        creates,
    })
}

// How many numbers of a page are padded whose stream scans and takes so many bytes, where that is asked for, else 0.
fn page_padded(page: &[u8], taken: usize, counted: bool) -> u64
    requires { (length page.now ≡ page_size) × (stream_off page.now + taken ≤ page_size) }
    ensures { (c : Scan) → page_scan page.now ≡ accepted c → c.taken ≡ taken
        → result ≡ if_asked counted (page_padded page.now) }
{
    if !counted {
        return 0;
    }
    let start = scripthash_fields::stream_off(page);
    let count = usize::from(buffer::get_u16(page, SH_PAGE_OFF_N_FKS));
    scripthash_stream::count_padded(&page[start..], count, taken) as u64
}

// Reads a page of a chain behind a number: its stream is scanned once, and its first number read once more. Its padded numbers are counted
// where it is sound and they are asked for.
fn read_link(page: &[u8], prev: u64, counted: bool) -> Result<LinkEnd, Refusal>
    requires { length page.now ≡ page_size }
    ensures { link_end_answer result ≡ answered (link_end_of counted page.now) (soundly (link_read prev page.now)) }
{
    let Ok(Scanned { taken, last: fk }) = sh_page_stream_tail(page) else {
        return Err(Refusal::KeyUnsound);
    };
    if !sound_last(fk) {
        return Err(Refusal::KeyUnsound);
    }
    let start = scripthash_fields::stream_off(page);
    let Ok(form) = compact::read_uleb128(&page[start..]) else {
        return Err(Refusal::KeyUnsound);
    };
    if form.value <= prev {
        return Err(Refusal::KeyUnsound);
    }
    let Ok(PageLink { last, off: next }) = scripthash_fields::sh_page_read_packed(page) else {
        return Err(Refusal::KeyUnsound);
    };
    let count = u64::from(buffer::get_u16(page, SH_PAGE_OFF_N_FKS));
    Ok(LinkEnd {
        count,
        fk,
        last,
        next,
        padded: page_padded(page, taken, counted),
    })
}

// The header of a key's last page, at an offset.
fn last_page(body: &[u8], mark: u64, last: u64) -> Result<LastPage, Refusal>
    requires { mark ≤ length body.now }
    ensures { last_page_answer result ≡ soundly (last_at (body_ground body.now mark) last) }
{
    if !is_page(last, mark) {
        return Err(Refusal::KeyUnsound);
    }
    let start = last as usize;
    read_last(&body[start..start + SH_PAGE_SIZE])
}

// A key's last page as an append looks at it, at an offset: it is scanned once. 31 where it isn't sound.
pub fn tail_end(body: &[u8], mark: u64, last: u64) -> Result<TailEnd, Refusal>
    requires { mark ≤ length body.now }
    ensures { tail_answer result ≡ answered tail_end_of (soundly (tail_at (body_ground body.now mark) last)) }
{
    if !is_page(last, mark) {
        return Err(Refusal::KeyUnsound);
    }
    let start = last as usize;
    read_tail(&body[start..start + SH_PAGE_SIZE])
}

// A page of a chain behind a number, at an offset.
fn link_end(body: &[u8], mark: u64, prev: u64, off: u64, counted: bool) -> Result<LinkEnd, Refusal>
    requires { mark ≤ length body.now }
    ensures { link_end_answer result
        ≡ answered (link_end_of counted (page_at (body_ground body.now mark) off))
        (soundly (link_scan (body_ground body.now mark) prev off)) }
{
    if !is_page(off, mark) {
        return Err(Refusal::KeyUnsound);
    }
    let start = off as usize;
    read_link(&body[start..start + SH_PAGE_SIZE], prev, counted)
}

// Walks a chain from its first page to its last, each page once: tells how many numbers its pages have, how many they are, and how many
// of the numbers are padded, where that is asked for.
fn walk_pages(
    body: &[u8],
    mark: u64,
    first: u64,
    last: u64,
    counted: bool,
) -> Result<KeyCounts, Refusal>
    requires { mark ≤ length body.now }
    ensures { walk_answer result
        ≡ answered (walked_from counted 0 0 0) (soundly (walk (mark / page_size) (body_ground body.now mark) last 0 first)) }
{
    let mut off = first;
    let mut prev = 0;
    let mut length = 0;
    let mut padded = 0;
    for walked in 0..mark / SH_PAGE_BYTES {
        let LinkEnd {
            count,
            fk,
            last: end,
            next,
            padded: more,
        } = link_end(body, mark, prev, off, counted)?;
        length += count;
        padded += more;
        if off == last {
            return Ok(KeyCounts {
                length,
                pages: walked + 1,
                padded,
            });
        }
        if end {
            return Err(Refusal::KeyUnsound);
        }
        prev = fk;
        off = next;
    }
    Err(Refusal::KeyUnsound)
}

// Tells whether a last page's creates is the length of the list, or 0, which says that it was never counted.
fn total_good(creates: u32, length: u64) -> bool
    ensures { result ≡ total_good creates length }
{
    creates == 0 || u64::from(creates) == length
}

// A key's chain whose last page is at an offset, with its padded numbers counted where that is asked for; or 31 where it isn't sound.
pub fn chain_end(body: &[u8], mark: u64, last: u64, counted: bool) -> Result<ChainEnd, Refusal>
    requires { mark ≤ length body.now }
    ensures { chain_answer result ≡ answered (chain_end_of counted) (soundly (chain_at (body_ground body.now mark) last)) }
{
    let LastPage { first, creates } = last_page(body, mark, last)?;
    let KeyCounts {
        length,
        pages,
        padded,
    } = walk_pages(body, mark, first, last, counted)?;
    if !total_good(creates, length) {
        return Err(Refusal::KeyUnsound);
    }
    Ok(ChainEnd {
        first,
        length,
        pages,
        padded,
    })
}

// Writes the numbers of a page that reads, by its bytes, to the start of out, and tells how many they are and where the next page is.
fn fill_page(page: &[u8], out: &mut [u64]) -> Result<PageFill, Refusal>
    requires { length page.now ≡ page_size }
    ensures { PageFilled (fill_answer result) out.old out.new page.now
        (page_entries (length out.old) page.now) }
{
    let count = usize::from(buffer::get_u16(page, SH_PAGE_OFF_N_FKS));
    if out.len() < count {
        return Err(Refusal::ListTooShort);
    }
    let start = scripthash_fields::stream_off(page);
    scripthash_scan::fill_fk_delta_stream(&page[start..], count, out);
    Ok(PageFill {
        count,
        next: scripthash_fields::next_off(page),
    })
}

// The same for the page at an offset.
fn page_into(body: &[u8], mark: u64, off: u64, out: &mut [u64]) -> Result<PageFill, Refusal>
    requires { mark ≤ length body.now }
    ensures { PageFilled (fill_answer result) out.old out.new (page_at (body_ground body.now mark) off)
        (page_into (length out.old) (body_ground body.now mark) off) }
{
    if !is_page(off, mark) {
        return Err(Refusal::KeyUnsound);
    }
    let start = off as usize;
    fill_page(&body[start..start + SH_PAGE_SIZE], out)
}

// Writes the numbers of a sound chain to the start of out, page by page.
fn chain_into(body: &[u8], mark: u64, first: u64, last: u64, out: &mut [u64])
    requires { mark ≤ length body.now }
    ensures { (c : ChainIs) → soundly (chain_at (body_ground body.now mark) last) ≡ accepted c → first ≡ get_or c.offs 0 0
        → Written out.old out.new c.numbers }
{
    let mut off = first;
    let mut at = 0;
    for _ in 0..mark / SH_PAGE_BYTES {
        let Ok(PageFill { count, next }) = page_into(body, mark, off, &mut out[at..]) else {
            return;
        };
        if off == last {
            return;
        }
        at += count;
        off = next;
    }
}

// Reads a key's pages into the start of out: all are judged, and then read.
pub fn read_chain(body: &[u8], mark: u64, last: u64, out: &mut [u64]) -> Result<KeyCounts, Refusal>
    requires { mark ≤ length body.now }
    ensures { KeyRead (counts_answer result) out.old out.new
        (soundly (content_at (body_ground body.now mark) (Extent last))) }
{
    let ChainEnd {
        first,
        length,
        pages,
        padded,
    } = chain_end(body, mark, last, true)?;
    if (out.len() as u64) < length {
        return Err(Refusal::ListTooShort);
    }
    chain_into(body, mark, first, last, out);
    Ok(KeyCounts {
        length,
        pages,
        padded,
    })
}

// The offset of the page that a page's link names.
pub fn next_page(body: &[u8], off: u64) -> u64
    requires { off + page_size ≤ length body.now }
    ensures { result ≡ link_offset (link_of (part body.now off page_size)) }
{
    let link = buffer::get_u40(body, off as usize + SH_PAGE_OFF_PACKED);
    link / 2 * SH_PAGE_BYTES
}
