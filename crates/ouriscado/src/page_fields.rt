// A page's fields. A buffer that isn't a page is refused with 4 by each.
ghost use Rattle.std.specs.Prelude.{◌≡◌, true, false};
ghost use Rattle.error.specs.Refusal.{refusal_of, value_or};
ghost use Rattle.scripthash_fields.specs.Fields.{read_link, is_last, first_off, next_off_of, extent_of, creates_of, n_fks, require_delta};
ghost use Rattle.scripthash_fields.specs.Fields.{stream_off_of, stream_cap_of, write_link, set_extent, set_creates, set_count, init_empty, after_set};
ghost use Rattle.scripthash_fields.specs.FieldAnswers.{link_answer, extent_answer};
ghost use Rattle.ouriscado.specs.OutPage.{base_or0, count_or0};

use crate::answers::{hand_out, number};
use error::Refusal;
use scripthash_fields::{PageExtent, PageLink};

// Hands out what a link says.
fn put_link(got: Result<PageLink, Refusal>, last: &mut bool, off: &mut u64) -> u32
    ensures number { result ≡ refusal_of (link_answer got) }
    ensures last { last.new ≡ value_or (λ l. l.last) (link_answer got) false }
    ensures off { off.new ≡ value_or (λ l. l.off) (link_answer got) 0 }
{
    match got {
        Ok(link) => {
            *last = link.last;
            *off = link.off;
            0
        }
        Err(refusal) => {
            *last = false;
            *off = 0;
            u32::from(refusal)
        }
    }
}

// Hands out an extent, 0 and 0 where there is none.
fn put_extent(got: Result<Option<PageExtent>, Refusal>, base: &mut u64, n: &mut u32) -> u32
    ensures number { result ≡ refusal_of (extent_answer got) }
    ensures base { base.new ≡ value_or base_or0 (extent_answer got) 0 }
    ensures count { n.new ≡ value_or count_or0 (extent_answer got) 0 }
{
    match got {
        Ok(Some(extent)) => {
            *base = extent.base;
            *n = extent.n;
            0
        }
        Ok(None) => {
            *base = 0;
            *n = 0;
            0
        }
        Err(refusal) => {
            *base = 0;
            *n = 0;
            u32::from(refusal)
        }
    }
}

// What a page's link says: whether the page is LAST, and the offset of the page that it names. Refuses 4.
#[unsafe(no_mangle)]
pub extern "C" fn ouriscado_sh_page_read_packed(page: &[u8], last: &mut bool, off: &mut u64) -> u32
    ensures number { result ≡ refusal_of (read_link page.now) }
    ensures last { last.new ≡ value_or (λ l. l.last) (read_link page.now) false }
    ensures off { off.new ≡ value_or (λ l. l.off) (read_link page.now) 0 }
{
    put_link(scripthash_fields::sh_page_read_packed(page), last, off)
}

// Whether a page is LAST. Refuses 4.
#[unsafe(no_mangle)]
pub extern "C" fn ouriscado_sh_page_is_last(page: &[u8], last: &mut bool) -> u32
    ensures number { result ≡ refusal_of (is_last page.now) }
    ensures last { last.new ≡ value_or (λ x. x) (is_last page.now) false }
{
    hand_out(scripthash_fields::sh_page_is_last(page), false, last)
}

// The first page's offset, of a page with LAST. Refuses 4, 7.
#[unsafe(no_mangle)]
pub extern "C" fn ouriscado_sh_page_first_off(page: &[u8], off: &mut u64) -> u32
    ensures number { result ≡ refusal_of (first_off page.now) }
    ensures off { off.new ≡ value_or (λ x. x) (first_off page.now) 0 }
{
    hand_out(scripthash_fields::sh_page_first_off(page), 0, off)
}

// The next page's offset, 0 where the page is LAST. Refuses 4.
#[unsafe(no_mangle)]
pub extern "C" fn ouriscado_sh_page_next(page: &[u8], off: &mut u64) -> u32
    ensures number { result ≡ refusal_of (next_off_of page.now) }
    ensures off { off.new ≡ value_or (λ x. x) (next_off_of page.now) 0 }
{
    hand_out(scripthash_fields::sh_page_next(page), 0, off)
}

// Writes a page's link: LAST or not, and the offset of the page that it names. Refuses 4 to 6.
#[unsafe(no_mangle)]
pub extern "C" fn ouriscado_sh_page_write_packed(page: &mut [u8], last: bool, off: u64) -> u32
    ensures number { result ≡ refusal_of (write_link page.old last off) }
    ensures page { page.new ≡ after_set page.old (write_link page.old last off) }
{
    number(scripthash_fields::sh_page_write_packed(page, last, off))
}

// Makes a page LAST, with the first page's offset. Refuses 4 to 6.
#[unsafe(no_mangle)]
pub extern "C" fn ouriscado_sh_page_set_last(page: &mut [u8], off: u64) -> u32
    ensures number { result ≡ refusal_of (write_link page.old true off) }
    ensures page { page.new ≡ after_set page.old (write_link page.old true off) }
{
    number(scripthash_fields::sh_page_set_last(page, off))
}

// Gives a page a next page, without LAST. Refuses 4 to 6.
#[unsafe(no_mangle)]
pub extern "C" fn ouriscado_sh_page_set_next(page: &mut [u8], off: u64) -> u32
    ensures number { result ≡ refusal_of (write_link page.old false off) }
    ensures page { page.new ≡ after_set page.old (write_link page.old false off) }
{
    number(scripthash_fields::sh_page_set_next(page, off))
}

// Where a page's stream starts. Refuses 4.
#[unsafe(no_mangle)]
pub extern "C" fn ouriscado_sh_page_stream_off(page: &[u8], off: &mut usize) -> u32
    ensures number { result ≡ refusal_of (stream_off_of page.now) }
    ensures off { off.new ≡ value_or (λ x. x) (stream_off_of page.now) 0 }
{
    hand_out(scripthash_fields::sh_page_stream_off(page), 0, off)
}

// How many bytes a page's stream may take. Refuses 4.
#[unsafe(no_mangle)]
pub extern "C" fn ouriscado_sh_page_stream_cap(page: &[u8], cap: &mut usize) -> u32
    ensures number { result ≡ refusal_of (stream_cap_of page.now) }
    ensures cap { cap.new ≡ value_or (λ x. x) (stream_cap_of page.now) 0 }
{
    hand_out(scripthash_fields::sh_page_stream_cap(page), 0, cap)
}

// The extent that a page names, its base and how many pages it has: 0 and 0 outside version 2. Refuses 4, 8, 9.
#[unsafe(no_mangle)]
pub extern "C" fn ouriscado_sh_page_extent(page: &[u8], base: &mut u64, n: &mut u32) -> u32
    ensures number { result ≡ refusal_of (extent_of page.now) }
    ensures base { base.new ≡ value_or base_or0 (extent_of page.now) 0 }
    ensures count { n.new ≡ value_or count_or0 (extent_of page.now) 0 }
{
    put_extent(scripthash_fields::sh_page_extent(page), base, n)
}

// Makes a page name an extent, in version 2. Refuses 4, 8, 9.
#[unsafe(no_mangle)]
pub extern "C" fn ouriscado_sh_page_set_extent(page: &mut [u8], base: u64, n: u32) -> u32
    ensures number { result ≡ refusal_of (set_extent page.old base n) }
    ensures page { page.new ≡ after_set page.old (set_extent page.old base n) }
{
    number(scripthash_fields::sh_page_set_extent(page, base, n))
}

// A page's creates, 0 outside version 2. Refuses 4.
#[unsafe(no_mangle)]
pub extern "C" fn ouriscado_sh_page_extent_creates(page: &[u8], n: &mut u32) -> u32
    ensures number { result ≡ refusal_of (creates_of page.now) }
    ensures creates { n.new ≡ value_or (λ x. x) (creates_of page.now) 0 }
{
    hand_out(scripthash_fields::sh_page_extent_creates(page), 0, n)
}

// Writes a page's creates, in version 2 only. Refuses 4.
#[unsafe(no_mangle)]
pub extern "C" fn ouriscado_sh_page_set_extent_creates(page: &mut [u8], n: u32) -> u32
    ensures number { result ≡ refusal_of (set_creates page.old n) }
    ensures page { page.new ≡ after_set page.old (set_creates page.old n) }
{
    number(scripthash_fields::sh_page_set_extent_creates(page, n))
}

// How many numbers a page has. Refuses 4, 15.
#[unsafe(no_mangle)]
pub extern "C" fn ouriscado_sh_page_n_fks(page: &[u8], n: &mut usize) -> u32
    ensures number { result ≡ refusal_of (n_fks page.now) }
    ensures count { n.new ≡ value_or (λ x. x) (n_fks page.now) 0 }
{
    hand_out(scripthash_fields::sh_page_n_fks(page), 0, n)
}

// Writes a page's count. Refuses 4.
#[unsafe(no_mangle)]
pub extern "C" fn ouriscado_sh_page_set_n_fks(page: &mut [u8], n: u16) -> u32
    ensures number { result ≡ refusal_of (set_count page.old n) }
    ensures page { page.new ≡ after_set page.old (set_count page.old n) }
{
    number(scripthash_fields::sh_page_set_n_fks(page, n))
}

// Passes a page that can be read. Refuses 4, 15, 16.
#[unsafe(no_mangle)]
pub extern "C" fn ouriscado_sh_page_require_delta(page: &[u8]) -> u32
    ensures { result ≡ refusal_of (require_delta page.now) }
{
    number(scripthash_fields::sh_page_require_delta(page))
}

// Makes a page empty: version 1, LAST with first offset 0, every other byte 0. Refuses 4.
#[unsafe(no_mangle)]
pub extern "C" fn ouriscado_sh_page_init_empty(page: &mut [u8]) -> u32
    ensures number { result ≡ refusal_of (init_empty page.old) }
    ensures page { page.new ≡ after_set page.old (init_empty page.old) }
{
    number(scripthash_fields::sh_page_init_empty(page))
}
