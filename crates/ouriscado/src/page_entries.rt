// The stream of a page: read, appended to and written.
ghost use Rattle.std.specs.Prelude.{false, ◌≡◌, length};
ghost use Rattle.error.specs.Refusal.{refusal_of, value_or};
ghost use Rattle.scripthash_stream.specs.Stream.{after_decode};
ghost use Rattle.scripthash_fields.specs.Page.{next_off};
ghost use Rattle.scripthash_pages.specs.Entries.{page_scan, last_of, page_entries, read_count, page_padded, append_spot, has_spot, after_append};
ghost use Rattle.scripthash_pages.specs.Entries.{write_stream};
ghost use Rattle.scripthash_pages.specs.Entries.{after_write_stream};
ghost use Rattle.scripthash_pages.specs.EntryAnswers.{try_answer};

use crate::answers::hand_out;
use error::Refusal;
use scripthash_pages::TryAppend;

// How many bytes a page's stream takes, and its last number, 0 where it has none. Refuses 4, 15 to 18, 20 to 23.
#[unsafe(no_mangle)]
pub extern "C" fn ouriscado_sh_page_stream_tail(
    page: &[u8],
    taken: &mut usize,
    last: &mut u64,
) -> u32
    ensures number { result ≡ refusal_of (page_scan page.now) }
    ensures taken { taken.new ≡ value_or (λ s. s.taken) (page_scan page.now) 0 }
    ensures last { last.new ≡ value_or last_of (page_scan page.now) 0 }
{
    match scripthash_pages::sh_page_stream_tail(page) {
        Ok(scanned) => {
            *taken = scanned.taken;
            *last = scanned.last;
            0
        }
        Err(refusal) => {
            *taken = 0;
            *last = 0;
            u32::from(refusal)
        }
    }
}

// The last number of a page, 0 where it has none. Refuses 4, 15 to 18, 20 to 23.
#[unsafe(no_mangle)]
pub extern "C" fn ouriscado_sh_page_last_fk(page: &[u8], last: &mut u64) -> u32
    ensures number { result ≡ refusal_of (page_scan page.now) }
    ensures last { last.new ≡ value_or last_of (page_scan page.now) 0 }
{
    hand_out(scripthash_pages::sh_page_last_fk(page), 0, last)
}

// Reads the numbers of a page into the start of out, and tells how many, and how many of them are padded. Refuses 4, 15 to 18, 20 to 23,
// 34.
#[unsafe(no_mangle)]
pub extern "C" fn ouriscado_sh_page_entries_into(
    page: &[u8],
    out: &mut [u64],
    count: &mut usize,
    padded: &mut usize,
) -> u32
    ensures number { result ≡ refusal_of (page_entries (length out.old) page.now) }
    ensures list { out.new ≡ after_decode out.old (page_entries (length out.old) page.now) }
    ensures count { count.new ≡ value_or read_count (page_entries (length out.old) page.now) 0 }
    ensures padded { padded.new
        ≡ value_or (λ _. page_padded page.now) (page_entries (length out.old) page.now) 0 }
{
    match scripthash_pages::sh_page_entries_into(page, out) {
        Ok(read) => {
            *count = read.count;
            *padded = read.padded;
            0
        }
        Err(refusal) => {
            *count = 0;
            *padded = 0;
            u32::from(refusal)
        }
    }
}

// Reads the numbers of a page into the start of out, and tells how many, the next page's offset, 0 where the page is LAST, and how many of
// the numbers are padded. Refuses 4, 15 to 18, 20 to 23, 34.
#[unsafe(no_mangle)]
pub extern "C" fn ouriscado_sh_page_decode_slice_into(
    page: &[u8],
    out: &mut [u64],
    count: &mut usize,
    next: &mut u64,
    padded: &mut usize,
) -> u32
    ensures number { result ≡ refusal_of (page_entries (length out.old) page.now) }
    ensures list { out.new ≡ after_decode out.old (page_entries (length out.old) page.now) }
    ensures count { count.new ≡ value_or read_count (page_entries (length out.old) page.now) 0 }
    ensures next { next.new
        ≡ value_or (λ _. next_off page.now) (page_entries (length out.old) page.now) 0 }
    ensures padded { padded.new
        ≡ value_or (λ _. page_padded page.now) (page_entries (length out.old) page.now) 0 }
{
    match scripthash_pages::sh_page_decode_slice_into(page, out) {
        Ok(read) => {
            *count = read.count;
            *next = read.next;
            *padded = read.padded;
            0
        }
        Err(refusal) => {
            *count = 0;
            *next = 0;
            *padded = 0;
            u32::from(refusal)
        }
    }
}

// Hands out whether a number was appended.
fn put_appended(got: Result<TryAppend, Refusal>, appended: &mut bool) -> u32
    ensures number { result ≡ refusal_of (try_answer got) }
    ensures appended { appended.new ≡ value_or (λ x. x) (try_answer got) false }
{
    *appended = false;
    match got {
        Ok(TryAppend::Appended) => {
            *appended = true;
            0
        }
        Ok(TryAppend::Full) => 0,
        Err(refusal) => u32::from(refusal),
    }
}

// Appends a number to a page, and tells whether it was: it isn't where the page is full. Refuses 4, 12, 13, 15 to 18, 20 to 23, 32.
#[unsafe(no_mangle)]
pub extern "C" fn ouriscado_sh_page_try_append(page: &mut [u8], fk: u64, appended: &mut bool) -> u32
    ensures number { result ≡ refusal_of (append_spot page.old fk) }
    ensures bytes { page.new ≡ after_append page.old (append_spot page.old fk) }
    ensures appended { appended.new ≡ value_or has_spot (append_spot page.old fk) false }
{
    put_appended(scripthash_pages::sh_page_try_append(page, fk), appended)
}

// Writes the stream of a rising list to a page whose version is set, with its count, and tells its length. Refuses 4, 10, 12, 13, 32, 33.
#[unsafe(no_mangle)]
pub extern "C" fn ouriscado_sh_page_write_stream(
    page: &mut [u8],
    fks: &[u64],
    len: &mut usize,
) -> u32
    ensures number { result ≡ refusal_of (write_stream page.old fks.now) }
    ensures bytes { page.new
        ≡ after_write_stream page.old fks.now (write_stream page.old fks.now) }
    ensures len { len.new ≡ value_or (λ x. x) (write_stream page.old fks.now) 0 }
{
    hand_out(scripthash_pages::sh_page_write_stream(page, fks), 0, len)
}
