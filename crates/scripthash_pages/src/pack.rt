// Whole pages packed from an offered list: the stream and 0 behind it first, where the list is accepted, then the header.
ghost use Rattle.std.specs.Prelude.{◌≡◌, ◌++◌, ◌≤◌, IfOk, length, take};
ghost use Rattle.buffer.specs.Bytes.{overwrite};
ghost use Rattle.buffer.specs.LittleEndian.{bytes_of};
ghost use Rattle.scripthash_layout.specs.Sizes.{page_size};
ghost use Rattle.scripthash_stream.specs.Stream.{max_offered};
ghost use Rattle.scripthash_fields.specs.Fields.{done, after_set};
ghost use Rattle.scripthash_fields.specs.FieldAnswers.{done_answer};
ghost use Rattle.scripthash_pages.specs.Pack.{packed, pack_page, linked, pack_extent};

use error::Refusal;
use scripthash_fields::{
    SH_PAGE_DELTA_VER, SH_PAGE_EXTENT_HEADER_LEN, SH_PAGE_EXTENT_VER, SH_PAGE_HEADER_LEN,
    SH_PAGE_OFF_EXTENT_BASE, SH_PAGE_OFF_EXTENT_CREATES, SH_PAGE_OFF_EXTENT_N, SH_PAGE_OFF_N_FKS,
    SH_PAGE_OFF_PACKED, SH_PAGE_OFF_VER, check_extent, check_link, link_to, whole_page,
};
use scripthash_stream::MAX_OFFERED;

// Packs the stream of an offered list behind the first bytes of a page, and 0 behind it; all of the page is left where the list is refused.
#[tactic(auto, unfolding(crate::specs::Pack::packed, crate::specs::Pack::pack_page, crate::specs::Pack::pack_extent, error::specs::Refusal::refuse_if, error::specs::Refusal::and_then, error::specs::Refusal::answered))]
fn pack_stream(page: &mut [u8], off: usize, fks: &[u64]) -> Result<(), Refusal>
    requires { (length page.old ≡ page_size) × (off ≤ page_size) }
    ensures few { IfOk result (λ done. length fks.now ≤ max_offered) }
    ensures answer { done_answer result ≡ done (packed (take off page.old) fks.now) }
    ensures page { page.new ≡ after_set page.old (packed (take off page.old) fks.now) }
{
    if MAX_OFFERED < fks.len() {
        return Err(Refusal::TooManyOffered);
    }
    let len = scripthash_stream::encode_fk_delta_stream_into(&mut page[off..], fks)?;
    let end = off + len;
    page[end..].fill(0);
    Ok(())
}

// Writes a page's version, count and link.
fn put_header(page: &mut [u8], version: u8, n: u16, link: u64)
    requires { length page.old ≡ page_size }
    ensures { page.new ≡ overwrite page.old 0 (bytes_of 1 version ++ (bytes_of 2 n ++ bytes_of 5 link)) }
{
    page[SH_PAGE_OFF_VER] = version;
    buffer::put_u16(page, SH_PAGE_OFF_N_FKS, n);
    buffer::put_u40(page, SH_PAGE_OFF_PACKED, link);
}

// Writes a page's extent, with creates 0.
fn put_extent(page: &mut [u8], base: u64, n: u32)
    requires { length page.old ≡ page_size }
    ensures { page.new ≡ overwrite page.old 8 (bytes_of 8 base ++ (bytes_of 4 n ++ bytes_of 4 0)) }
{
    buffer::put_u64(page, SH_PAGE_OFF_EXTENT_BASE, base);
    buffer::put_u32(page, SH_PAGE_OFF_EXTENT_N, n);
    buffer::put_u32(page, SH_PAGE_OFF_EXTENT_CREATES, 0);
}

// The offset that the last page of an extent names: the next page's, or the extent's base where there is none.
fn linked_off(base: u64, next: u64) -> u64
    ensures { result ≡ linked base next }
{
    if next == 0 {
        return base;
    }
    next
}

// Packs a page that names no extent, with a next page; with none, at 0, it is LAST with first offset 0.
#[tactic(auto, unfolding(crate::specs::Pack::packed, crate::specs::Pack::pack_page, crate::specs::Pack::pack_extent, error::specs::Refusal::refuse_if, error::specs::Refusal::and_then, error::specs::Refusal::answered))]
pub fn sh_page_pack_fks(page: &mut [u8], fks: &[u64], next: u64) -> Result<(), Refusal>
    ensures answer { done_answer result ≡ done (pack_page page.old fks.now next) }
    ensures page { page.new ≡ after_set page.old (pack_page page.old fks.now next) }
{
    whole_page(page)?;
    check_link(next)?;
    pack_stream(page, SH_PAGE_HEADER_LEN, fks)?;
    let link = link_to(next == 0, next);
    put_header(page, SH_PAGE_DELTA_VER, fks.len() as u16, link);
    Ok(())
}

// Packs a page that names an extent, with a next page; with none, at 0, it is LAST with the extent's base as first offset.
#[tactic(auto, unfolding(crate::specs::Pack::packed, crate::specs::Pack::pack_page, crate::specs::Pack::pack_extent, error::specs::Refusal::refuse_if, error::specs::Refusal::and_then, error::specs::Refusal::answered))]
pub fn sh_page_pack_extent_last_fks(
    page: &mut [u8],
    fks: &[u64],
    base: u64,
    n: u32,
    next: u64,
) -> Result<(), Refusal>
    ensures answer { done_answer result ≡ done (pack_extent page.old fks.now base n next) }
    ensures page { page.new
        ≡ after_set page.old (pack_extent page.old fks.now base n next) }
{
    whole_page(page)?;
    let off = linked_off(base, next);
    check_link(off)?;
    check_extent(base, n)?;
    pack_stream(page, SH_PAGE_EXTENT_HEADER_LEN, fks)?;
    let link = link_to(next == 0, off);
    put_header(page, SH_PAGE_EXTENT_VER, fks.len() as u16, link);
    put_extent(page, base, n);
    Ok(())
}
