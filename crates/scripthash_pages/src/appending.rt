// The stream of a page: a number appended to it, and a stream written over it, from the source's scripthash_pages.rs.
ghost use Rattle.std.specs.Prelude.{cond, ◌≡◌, ◌+◌, ◌≤◌, ◌<◌, eqb, length};
ghost use Rattle.error.specs.Refusal.{answered};
ghost use Rattle.compact.specs.Uleb128.{uleb_len};
ghost use Rattle.scripthash_stream.specs.Answers.{bytes_answer};
ghost use Rattle.scripthash_pages.specs.EntryAnswers.{try_answer};
ghost use Rattle.scripthash_fields.specs.Page.{count_of};
ghost use Rattle.scripthash_pages.specs.Entries.{append_spot, has_spot, one_more, with_appended, after_append};
ghost use Rattle.scripthash_pages.specs.Entries.{write_stream, after_write_stream};
ghost use Rattle.scripthash_pages.specs.Answers.{spot_answer};

use crate::answers::TryAppend;
use compact::uleb128_len;
use error::Refusal;
use scripthash_fields::{
    SH_PAGE_DELTA_VER, SH_PAGE_EXTENT_VER, SH_PAGE_OFF_N_FKS, stream_off, whole_page,
};
use scripthash_layout::SH_PAGE_SIZE;
use scripthash_stream::MAX_OFFERED;

// Bit 63, which no number of a stream has.
const SH_FLAG_BIT: u64 = 0x8000_0000_0000_0000;

// Where an offered number goes in a page, and its difference.
#[derive(Clone, Copy, Debug, PartialEq, Eq)]
pub struct AppendSpot {
    pub at: usize,
    pub difference: u64,
}

// Where the number fk goes in a page: behind its stream, which is scanned once.
#[tactic(auto, using(crate::proofs::LawsAppend::scan_ends, compact::proofs::LawsLength::len_at_most), unfolding(crate::specs::Entries::append_spot, crate::specs::Entries::spot_behind, error::specs::Refusal::refuse_if, error::specs::Refusal::and_then, error::specs::Refusal::answered))]
fn append_spot(page: &[u8], fk: u64) -> Result<Option<AppendSpot>, Refusal>
    ensures { spot_answer result ≡ append_spot page.now fk }
{
    whole_page(page)?;
    if fk == 0 {
        return Err(Refusal::OfferedFirstZero);
    }
    if SH_FLAG_BIT <= fk {
        return Err(Refusal::OfferedBit63);
    }
    let tail = crate::entries::sh_page_stream_tail(page)?;
    if fk <= tail.last {
        return Err(Refusal::OfferedNotRising);
    }
    let at = stream_off(page) + tail.taken;
    let difference = fk - tail.last;
    if SH_PAGE_SIZE < at + uleb128_len(difference) {
        return Ok(None);
    }
    Ok(Some(AppendSpot { at, difference }))
}

// The version of a page once it has a number.
fn kept_version(version: u8) -> u8
    ensures { result ≡ cond (eqb version 2) 2 1 }
{
    if version == SH_PAGE_EXTENT_VER {
        SH_PAGE_EXTENT_VER
    } else {
        SH_PAGE_DELTA_VER
    }
}

// Counts one number more in a page's header.
fn count_one_more(page: &mut [u8])
    requires { (3 ≤ length page.old) × (count_of page.old < 65535) }
    ensures { page.new ≡ one_more page.old }
{
    let count = buffer::get_u16(page, SH_PAGE_OFF_N_FKS);
    page[0] = kept_version(page[0]);
    buffer::put_u16(page, SH_PAGE_OFF_N_FKS, count + 1);
}

// Appends the form of a difference at an offset of a page that has room for it, and counts it.
fn append_form(page: &mut [u8], at: usize, difference: u64)
    requires { (3 ≤ length page.old) × (count_of page.old < 65535) × (at + uleb_len difference ≤ length page.old) }
    ensures { page.new ≡ with_appended page.old (record { at = at; difference = difference }) }
{
    count_one_more(page);
    scripthash_stream::put_form(page, at, difference);
}

// Appends the number fk to a page, or leaves all of the page where it is full or the number is refused.
#[tactic(auto, using(crate::proofs::LawsAppend::spot_accepted, crate::proofs::LawsAppend::scan_ends), unfolding(crate::specs::Entries::after_append, error::specs::Refusal::refuse_if, error::specs::Refusal::and_then, error::specs::Refusal::answered))]
pub fn sh_page_try_append(page: &mut [u8], fk: u64) -> Result<TryAppend, Refusal>
    ensures answer { try_answer result ≡ answered has_spot (append_spot page.old fk) }
    ensures bytes { page.new ≡ after_append page.old (append_spot page.old fk) }
{
    match append_spot(page, fk)? {
        Some(spot) => {
            append_form(page, spot.at, spot.difference);
            Ok(TryAppend::Appended)
        }
        None => Ok(TryAppend::Full),
    }
}

// Writes the stream of an offered list to a page whose version is set, and its count; all of the page is left where the list is refused.
#[tactic(auto, unfolding(crate::specs::Entries::write_stream, crate::specs::Entries::after_write_stream, scripthash_fields::specs::Page::set_field, error::specs::Refusal::refuse_if, error::specs::Refusal::and_then, error::specs::Refusal::answered))]
pub fn sh_page_write_stream(page: &mut [u8], fks: &[u64]) -> Result<usize, Refusal>
    ensures answer { bytes_answer result ≡ write_stream page.old fks.now }
    ensures bytes { page.new
        ≡ after_write_stream page.old fks.now (write_stream page.old fks.now) }
{
    whole_page(page)?;
    if MAX_OFFERED < fks.len() {
        return Err(Refusal::TooManyOffered);
    }
    let off = stream_off(page);
    let len = scripthash_stream::encode_fk_delta_stream_into(&mut page[off..], fks)?;
    buffer::put_u16(page, SH_PAGE_OFF_N_FKS, fks.len() as u16);
    Ok(len)
}
