// A page's fields, each read or set by a call: from the source's scripthash_pages.rs. A buffer that isn't a page is refused, and a call
// that is refused leaves its page as it was.
ghost use Rattle.std.specs.Prelude.{◌≡◌, true, false, length};
ghost use Rattle.scripthash_layout.specs.Sizes.{page_size};
ghost use Rattle.scripthash_fields.specs.Page.{set_field};
ghost use Rattle.scripthash_fields.specs.Fields.{is_last, next_off_of, extent_of, creates_of, stream_off_of, stream_cap_of};
ghost use Rattle.scripthash_fields.specs.Fields.{write_link, set_extent, set_creates, set_count, init_empty, done, after_set};
ghost use Rattle.scripthash_fields.specs.FieldAnswers.{last_answer, offset_answer, extent_answer, creates_answer};
ghost use Rattle.scripthash_fields.specs.FieldAnswers.{count_answer, done_answer};

use crate::answers::PageExtent;
use crate::fields::{
    SH_PAGE_DELTA_VER, SH_PAGE_EXTENT_VER, SH_PAGE_OFF_EXTENT_BASE, SH_PAGE_OFF_EXTENT_CREATES,
    SH_PAGE_OFF_EXTENT_N, SH_PAGE_OFF_N_FKS, SH_PAGE_OFF_PACKED, SH_PAGE_OFF_VER, check_extent,
    check_link, link_to, names_extent, sh_page_read_packed, stream_off, whole_page,
};
use error::Refusal;
use scripthash_layout::SH_PAGE_SIZE;

// Writes a page's version.
#[tactic(auto, using(crate::proofs::LawsPage::set_byte))]
fn set_version(page: &mut [u8], version: u8)
    requires { length page.old ≡ page_size }
    ensures { page.new ≡ set_field page.old 0 1 version }
{
    page[SH_PAGE_OFF_VER] = version;
}

// Whether a page is LAST.
#[tactic(auto, unfolding(crate::specs::Fields::read_link, crate::specs::Fields::is_last, error::specs::Refusal::refuse_if))]
pub fn sh_page_is_last(page: &[u8]) -> Result<bool, Refusal>
    ensures { last_answer result ≡ is_last page.now }
{
    Ok(sh_page_read_packed(page)?.last)
}

// The next page's offset, 0 where the page is LAST.
#[tactic(auto, unfolding(crate::specs::Fields::read_link, crate::specs::Fields::next_off_of, crate::specs::Page::next_off, error::specs::Refusal::refuse_if))]
pub fn sh_page_next(page: &[u8]) -> Result<u64, Refusal>
    ensures { offset_answer result ≡ next_off_of page.now }
{
    Ok(sh_page_read_packed(page)?.next())
}

// Writes a page's link to the page at an offset.
#[tactic(auto, unfolding(crate::specs::Fields::write_link, crate::specs::Page::set_field, error::specs::Refusal::refuse_if))]
pub fn sh_page_write_packed(page: &mut [u8], last: bool, off: u64) -> Result<(), Refusal>
    ensures answer { done_answer result ≡ done (write_link page.old last off) }
    ensures page { page.new ≡ after_set page.old (write_link page.old last off) }
{
    whole_page(page)?;
    check_link(off)?;
    buffer::put_u40(page, SH_PAGE_OFF_PACKED, link_to(last, off));
    Ok(())
}

// Makes a page LAST, with the first page's offset. The C interface has this call and the next by name, so both stay over the one above.
pub fn sh_page_set_last(page: &mut [u8], off: u64) -> Result<(), Refusal>
    ensures answer { done_answer result ≡ done (write_link page.old true off) }
    ensures page { page.new ≡ after_set page.old (write_link page.old true off) }
{
    sh_page_write_packed(page, true, off)
}

// Gives a page a next page, without LAST.
pub fn sh_page_set_next(page: &mut [u8], off: u64) -> Result<(), Refusal>
    ensures answer { done_answer result ≡ done (write_link page.old false off) }
    ensures page { page.new ≡ after_set page.old (write_link page.old false off) }
{
    sh_page_write_packed(page, false, off)
}

// Where a page's stream starts.
#[tactic(auto, unfolding(crate::specs::Fields::stream_off_of, error::specs::Refusal::refuse_if))]
pub fn sh_page_stream_off(page: &[u8]) -> Result<usize, Refusal>
    ensures { count_answer result ≡ stream_off_of page.now }
{
    whole_page(page)?;
    Ok(stream_off(page))
}

// How many bytes a page's stream may take.
#[tactic(auto, unfolding(crate::specs::Fields::stream_cap_of, error::specs::Refusal::refuse_if))]
pub fn sh_page_stream_cap(page: &[u8]) -> Result<usize, Refusal>
    ensures { count_answer result ≡ stream_cap_of page.now }
{
    whole_page(page)?;
    Ok(SH_PAGE_SIZE - stream_off(page))
}

// The extent that a page names.
#[tactic(auto, unfolding(crate::specs::Fields::extent_of, crate::specs::Page::field, error::specs::Refusal::refuse_if))]
pub fn sh_page_extent(page: &[u8]) -> Result<Option<PageExtent>, Refusal>
    ensures { extent_answer result ≡ extent_of page.now }
{
    whole_page(page)?;
    if !names_extent(page) {
        return Ok(None);
    }
    let base = buffer::get_u64(page, SH_PAGE_OFF_EXTENT_BASE);
    let n = buffer::get_u32(page, SH_PAGE_OFF_EXTENT_N);
    check_extent(base, n)?;
    Ok(Some(PageExtent { base, n }))
}

// Makes a page name an extent, in version 2.
#[tactic(auto, unfolding(crate::specs::Fields::set_extent, crate::specs::Page::set_field, error::specs::Refusal::refuse_if))]
pub fn sh_page_set_extent(page: &mut [u8], base: u64, n: u32) -> Result<(), Refusal>
    ensures answer { done_answer result ≡ done (set_extent page.old base n) }
    ensures page { page.new ≡ after_set page.old (set_extent page.old base n) }
{
    whole_page(page)?;
    check_extent(base, n)?;
    set_version(page, SH_PAGE_EXTENT_VER);
    buffer::put_u64(page, SH_PAGE_OFF_EXTENT_BASE, base);
    buffer::put_u32(page, SH_PAGE_OFF_EXTENT_N, n);
    Ok(())
}

// A page's creates, 0 outside version 2.
#[tactic(auto, unfolding(crate::specs::Fields::creates_of, crate::specs::Page::field, error::specs::Refusal::refuse_if))]
pub fn sh_page_extent_creates(page: &[u8]) -> Result<u32, Refusal>
    ensures { creates_answer result ≡ creates_of page.now }
{
    whole_page(page)?;
    if !names_extent(page) {
        return Ok(0);
    }
    Ok(buffer::get_u32(page, SH_PAGE_OFF_EXTENT_CREATES))
}

// Writes a page's creates, in version 2 only.
#[tactic(auto, unfolding(crate::specs::Fields::set_creates, crate::specs::Page::set_field, error::specs::Refusal::refuse_if))]
pub fn sh_page_set_extent_creates(page: &mut [u8], n: u32) -> Result<(), Refusal>
    ensures answer { done_answer result ≡ done (set_creates page.old n) }
    ensures page { page.new ≡ after_set page.old (set_creates page.old n) }
{
    whole_page(page)?;
    if names_extent(page) {
        buffer::put_u32(page, SH_PAGE_OFF_EXTENT_CREATES, n);
    }
    Ok(())
}

// Writes a page's count.
#[tactic(auto, unfolding(crate::specs::Fields::set_count, crate::specs::Page::set_field, error::specs::Refusal::refuse_if))]
pub fn sh_page_set_n_fks(page: &mut [u8], n: u16) -> Result<(), Refusal>
    ensures answer { done_answer result ≡ done (set_count page.old n) }
    ensures page { page.new ≡ after_set page.old (set_count page.old n) }
{
    whole_page(page)?;
    buffer::put_u16(page, SH_PAGE_OFF_N_FKS, n);
    Ok(())
}

// Makes a page empty: version 1, LAST with first offset 0, every other byte 0.
#[tactic(auto, unfolding(crate::specs::Fields::init_empty, error::specs::Refusal::refuse_if))]
pub fn sh_page_init_empty(page: &mut [u8]) -> Result<(), Refusal>
    ensures answer { done_answer result ≡ done (init_empty page.old) }
    ensures page { page.new ≡ after_set page.old (init_empty page.old) }
{
    whole_page(page)?;
    page.fill(0);
    page[SH_PAGE_OFF_VER] = SH_PAGE_DELTA_VER;
    page[SH_PAGE_OFF_PACKED] = 1;
    Ok(())
}
