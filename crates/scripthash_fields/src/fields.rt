// A page's fields: version, count, link, and in version 2 the extent and creates. Here are the functions that others over pages use.
ghost use Rattle.std.specs.Prelude.{◌≡◌, ◌&&◌, ◌||◌, ◌-◌, ◌<◌, ◌≤◌, ◌^◌, ltb, eqb, IfOk, length};
ghost use Rattle.error.specs.Refusal.{accepted, refuse_if, count_above_capacity};
ghost use Rattle.scripthash_layout.specs.Sizes.{page_size};
ghost use Rattle.scripthash_fields.specs.Page.{page_whole, version_of, names_extent, link_of, is_last_link, link_offset, next_off, stream_off, link_to, link_named, extent_named};
ghost use Rattle.scripthash_fields.specs.Fields.{read_link, first_off, n_fks, require_delta};
ghost use Rattle.scripthash_fields.specs.FieldAnswers.{link_answer, offset_answer, count_answer, done_answer};

use crate::answers::PageLink;
use error::Refusal;
use scripthash_layout::{SH_PAGE_BYTES, SH_PAGE_SIZE};

// Where the version stands.
pub const SH_PAGE_OFF_VER: usize = 0;
// Where the count stands, in two bytes.
pub const SH_PAGE_OFF_N_FKS: usize = 1;
// Where the link stands, in five bytes.
pub const SH_PAGE_OFF_PACKED: usize = 3;
// Where the extent's base stands, in eight bytes.
pub const SH_PAGE_OFF_EXTENT_BASE: usize = 8;
// Where the extent's count stands, in four bytes.
pub const SH_PAGE_OFF_EXTENT_N: usize = 16;
// Where creates stands, in four bytes.
pub const SH_PAGE_OFF_EXTENT_CREATES: usize = 20;
// The version of a page that names no extent.
pub const SH_PAGE_DELTA_VER: u8 = 1;
// The version of a page that names one.
pub const SH_PAGE_EXTENT_VER: u8 = 2;
// The bytes before the stream, without an extent and with one.
pub const SH_PAGE_HEADER_LEN: usize = 8;

pub const SH_PAGE_EXTENT_HEADER_LEN: usize = 24;
// A link has 39 bits for a page's index.
const SH_PAGE_INDEX_RANGE: u64 = 1 << 39;
// What the link counts for in the number that the first eight bytes hold: it is the upper five of them.
const SH_PAGE_LINK_UNIT: u64 = 1 << 24;
// What an offset's remainder counts for once its bits are turned by twelve, so that it stands above the index.
const SH_PAGE_TURN: u64 = 1 << 52;

// Passes a buffer that has the length of a page.
#[tactic(auto, unfolding(error::specs::Refusal::refuse_if))]
pub fn whole_page(page: &[u8]) -> Result<(), Refusal>
    ensures whole { IfOk result (λ done. length page.now ≡ page_size) }
    ensures answer { done_answer result ≡ page_whole page.now }
{
    if page.len() != SH_PAGE_SIZE {
        return Err(Refusal::PageLength);
    }
    Ok(())
}

// A page's version. It is a stored byte, of which FORMAT leaves most undefined, so it stays a number.
#[tactic(auto, using(crate::proofs::LawsPage::field_byte))]
pub fn version_of(page: &[u8]) -> u8
    requires { length page.now ≡ page_size }
    ensures { result ≡ version_of page.now }
{
    page[SH_PAGE_OFF_VER]
}

// Whether a page names an extent.
pub fn names_extent(page: &[u8]) -> bool
    requires { length page.now ≡ page_size }
    ensures { result ≡ names_extent page.now }
{
    version_of(page) == SH_PAGE_EXTENT_VER
}

// A page's link, as it stands: less than 2^40. One load has it with the version and the count.
pub fn link_of(page: &[u8]) -> u64
    requires { length page.now ≡ page_size }
    ensures link { result ≡ link_of page.now }
    ensures small { result < 2 ^ 40 }
{
    buffer::get_u64(page, SH_PAGE_OFF_VER) / SH_PAGE_LINK_UNIT
}

// What a page's link says.
pub fn page_link(page: &[u8]) -> PageLink
    requires { length page.now ≡ page_size }
    ensures last { result.last ≡ is_last_link (link_of page.now) }
    ensures off { result.off ≡ link_offset (link_of page.now) }
{
    let link = link_of(page);
    PageLink {
        last: link % 2 == 1,
        off: link / 2 * SH_PAGE_BYTES,
    }
}

// The offset of the page behind a page, 0 where the page is LAST.
#[tactic(auto, unfolding(crate::specs::Page::next_off))]
pub fn next_off(page: &[u8]) -> u64
    requires { length page.now ≡ page_size }
    ensures { result ≡ next_off page.now }
{
    page_link(page).next()
}

// The link that names the page at an offset, LAST or not.
pub fn link_to(last: bool, off: u64) -> u64
    ensures { result ≡ link_to last off }
{
    off / SH_PAGE_BYTES * 2 + u64::from(last)
}

// Where the stream of a page starts.
pub fn stream_off(page: &[u8]) -> usize
    requires { length page.now ≡ page_size }
    ensures { result ≡ stream_off page.now }
{
    if names_extent(page) {
        SH_PAGE_EXTENT_HEADER_LEN
    } else {
        SH_PAGE_HEADER_LEN
    }
}

// Passes an offset that a link can name. With its bits turned by twelve a remainder stands above the index: one test passes what has none
// and an index that is small enough.
#[tactic(auto, using(crate::proofs::LawsFields::turned_named, crate::proofs::LawsFields::turned_large), unfolding(error::specs::Refusal::refuse_if))]
pub fn check_link(off: u64) -> Result<(), Refusal>
    ensures { done_answer result ≡ link_named off }
{
    let turned = off % SH_PAGE_BYTES * SH_PAGE_TURN + off / SH_PAGE_BYTES;
    if turned < SH_PAGE_INDEX_RANGE {
        return Ok(());
    }
    if off % SH_PAGE_BYTES != 0 {
        return Err(Refusal::LinkUnaligned);
    }
    Err(Refusal::LinkTooLarge)
}

// Passes an extent that a page can name.
#[tactic(auto, unfolding(error::specs::Refusal::refuse_if))]
pub fn check_extent(base: u64, n: u32) -> Result<(), Refusal>
    ensures { done_answer result ≡ extent_named base n }
{
    if n == 0 {
        return Err(Refusal::ExtentCountZero);
    }
    if base % SH_PAGE_BYTES != 0 || base == 0 {
        return Err(Refusal::ExtentBaseBad);
    }
    Ok(())
}

// Passes a count of numbers that the stream of a page has room for, from its start on.
#[tactic(auto, unfolding(error::specs::Refusal::refuse_if))]
fn check_count(n: usize, start: usize) -> Result<(), Refusal>
    requires { start ≤ page_size }
    ensures { done_answer result
        ≡ refuse_if (ltb (page_size - start) n) count_above_capacity (accepted tt) }
{
    if SH_PAGE_SIZE - start < n {
        return Err(Refusal::CountAboveCapacity);
    }
    Ok(())
}

// A page's link.
#[tactic(auto, unfolding(crate::specs::Fields::read_link, error::specs::Refusal::refuse_if))]
pub fn sh_page_read_packed(page: &[u8]) -> Result<PageLink, Refusal>
    ensures { link_answer result ≡ read_link page.now }
{
    whole_page(page)?;
    Ok(page_link(page))
}

// The first page's offset, of a page with LAST.
#[tactic(auto, unfolding(crate::specs::Fields::read_link, crate::specs::Fields::first_off, error::specs::Refusal::refuse_if))]
pub fn sh_page_first_off(page: &[u8]) -> Result<u64, Refusal>
    ensures { offset_answer result ≡ first_off page.now }
{
    let link = sh_page_read_packed(page)?;
    if !link.last {
        return Err(Refusal::NotLast);
    }
    Ok(link.off)
}

// How many numbers a page has.
#[tactic(auto, unfolding(crate::specs::Fields::n_fks, crate::specs::Page::field, error::specs::Refusal::refuse_if))]
pub fn sh_page_n_fks(page: &[u8]) -> Result<usize, Refusal>
    ensures { count_answer result ≡ n_fks page.now }
{
    whole_page(page)?;
    let n = usize::from(buffer::get_u16(page, SH_PAGE_OFF_N_FKS));
    check_count(n, stream_off(page))?;
    Ok(n)
}

// Passes a page that can be read. The version is asked first, so that a page that names an extent takes two tests.
#[tactic(auto, unfolding(crate::specs::Fields::require_delta, crate::specs::Page::field, error::specs::Refusal::refuse_if))]
pub fn sh_page_require_delta(page: &[u8]) -> Result<(), Refusal>
    ensures whole { IfOk result (λ done. length page.now ≡ page_size) }
    ensures answer { done_answer result ≡ require_delta page.now }
{
    whole_page(page)?;
    let n = usize::from(buffer::get_u16(page, SH_PAGE_OFF_N_FKS));
    match version_of(page) {
        SH_PAGE_EXTENT_VER => check_count(n, SH_PAGE_EXTENT_HEADER_LEN),
        SH_PAGE_DELTA_VER => check_count(n, SH_PAGE_HEADER_LEN),
        version => {
            check_count(n, SH_PAGE_HEADER_LEN)?;
            if version == 0 && n == 0 {
                return Ok(());
            }
            Err(Refusal::VersionBad)
        }
    }
}
