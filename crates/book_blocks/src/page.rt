// Pages in a body: written from a list, grown by one number, and linked.
ghost use Rattle.std.specs.Prelude.{◌≡◌, ◌+◌, ◌^◌, ◌≤◌, ◌<◌, length};
ghost use Rattle.buffer.specs.Bytes.{part, overwrite};
ghost use Rattle.scripthash_layout.specs.Sizes.{page_size};
ghost use Rattle.scripthash_fields.specs.Page.{stream_off};
ghost use Rattle.book_blocks.specs.Blocks.{last_page_of, total_with, page_with, page_before, page_to};
ghost use Rattle.book_blocks.specs.Steps.{LastPageLent, LastPageIn, LinkedPageIn, PageGrowsLent, PageGrowsIn};

use scripthash_fields::{
    SH_PAGE_EXTENT_HEADER_LEN, SH_PAGE_OFF_EXTENT_CREATES, SH_PAGE_OFF_N_FKS, SH_PAGE_OFF_PACKED,
    link_to,
};
use scripthash_layout::SH_PAGE_SIZE;

// Makes a page a key's last: packed with its extent, then the first page's offset and creates are written.
fn make_last(page: &mut [u8], fks: &[u64], first: u64, base: u64, extents: u32, creates: u32)
    requires { LastPageLent page.old fks.now base extents }
    ensures { page.new ≡ last_page_of first base extents creates fks.now }
{
    let _ = scripthash_pages::sh_page_pack_extent_last_fks(page, fks, base, extents, 0);
    buffer::put_u40(page, SH_PAGE_OFF_PACKED, link_to(true, first));
    buffer::put_u32(page, SH_PAGE_OFF_EXTENT_CREATES, creates);
}

// Writes a list as a key's last page at an offset of a body: with LAST, the first page's offset, an extent and creates.
pub fn put_last_page(
    body: &mut [u8],
    off: usize,
    fks: &[u64],
    first: u64,
    base: u64,
    extents: u32,
    creates: u32,
)
    requires { LastPageIn body.old off fks.now base extents }
    ensures { body.new ≡ overwrite body.old off (last_page_of first base extents creates fks.now) }
{
    let end = off + SH_PAGE_SIZE;
    make_last(&mut body[off..end], fks, first, base, extents, creates);
}

// Writes a list as a page of a run at an offset of a body, linked to the next page.
pub fn put_page_to(body: &mut [u8], off: usize, fks: &[u64], next: u64)
    requires { LinkedPageIn body.old off fks.now next }
    ensures { body.new ≡ overwrite body.old off (page_to next fks.now) }
{
    let end = off + SH_PAGE_SIZE;
    let _ = scripthash_pages::sh_page_pack_fks(&mut body[off..end], fks, next);
}

// A total with one number more: one that was never counted, 0, stays unknown, and one that creates can't tell becomes so.
pub fn total_with(creates: u32) -> u32
    ensures { result ≡ total_with creates }
{
    if creates == 0 {
        return 0;
    }
    if creates == u32::MAX {
        return 0;
    }
    creates + 1
}

// Counts one number more in a page that names an extent, and writes its form behind the bytes that its stream takes, and creates, one more
// or unknown.
fn append_last(page: &mut [u8], taken: usize, difference: u64, creates: u32)
    requires { PageGrowsLent page.old taken difference }
    ensures { page.new
        ≡ page_with page.old (record { at = stream_off page.old + taken; difference = difference }) creates }
{
    let count = buffer::get_u16(page, SH_PAGE_OFF_N_FKS);
    buffer::put_u16(page, SH_PAGE_OFF_N_FKS, count + 1);
    scripthash_stream::put_form(page, SH_PAGE_EXTENT_HEADER_LEN + taken, difference);
    buffer::put_u32(page, SH_PAGE_OFF_EXTENT_CREATES, total_with(creates));
}

// Appends a number, by its difference, to a key's last page in a body: only the count, the new form and creates are written.
pub fn grow_page(body: &mut [u8], last: usize, taken: usize, difference: u64, creates: u32)
    requires { PageGrowsIn body.old last taken difference }
    ensures { body.new ≡ overwrite body.old last
        (page_with (part body.old last page_size) (record {
          at = stream_off (part body.old last page_size) + taken;
          difference = difference;
        }) creates) }
{
    let end = last + SH_PAGE_SIZE;
    append_last(&mut body[last..end], taken, difference, creates);
}

// Gives a page that was the last a next page, without LAST, and creates 0.
fn make_before(page: &mut [u8], next: u64)
    requires { length page.old ≡ page_size }
    ensures { page.new ≡ page_before page.old next }
{
    buffer::put_u40(page, SH_PAGE_OFF_PACKED, link_to(false, next));
    buffer::put_u32(page, SH_PAGE_OFF_EXTENT_CREATES, 0);
}

// Links a page in a body that was a key's last to the page behind it: only the link and creates, 0, are written.
pub fn link_page(body: &mut [u8], last: usize, next: u64)
    requires { last + page_size ≤ length body.old }
    ensures { body.new ≡ overwrite body.old last (page_before (part body.old last page_size) next) }
{
    let end = last + SH_PAGE_SIZE;
    make_before(&mut body[last..end], next);
}
