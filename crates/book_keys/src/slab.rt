// A key's slab: whether it is sound, where its stream ends, and its numbers.
// Sizes and numbers of 64 bits are cast with `as`, since Rust has no From between them: each cast is proved to fit.
ghost use Rattle.std.specs.Prelude.{◌≡◌, ◌&&◌, ℕ, ◌+◌, ◌≤◌, leb, length};
ghost use Rattle.error.specs.Refusal.{accepted, answered};
ghost use Rattle.scripthash_layout.specs.Sizes.{slab_bytes, max_slab_class};
ghost use Rattle.scripthash_stream.specs.Stream.{Scan, end_from};
ghost use Rattle.scripthash_stream.specs.Answers.{scan_answer};
ghost use Rattle.scripthash_free.specs.FreeList.{is_block};
ghost use Rattle.scripthash_layout.specs.declared.head.ShHeadValue.TheVariants.{Slab};
ghost use Rattle.scripthash_slabs.specs.Slab.{slab_padded};
ghost use Rattle.book_keys.specs.Keys.{soundly, block_at, slab_scan, content_at, Ground, body_ground};
ghost use Rattle.book_keys.specs.Steps.{sound_last, slab_read, Written, ShortList, KeyRead};
ghost use Rattle.book_keys.specs.Answers.{counts_answer};

use crate::key::KeyCounts;
use error::Refusal;
use scripthash_free::is_slab;
use scripthash_layout::{SH_MAX_SLAB_CLASS, slab_bytes};
use scripthash_stream::Scanned;

// The most numbers that a slab is given.
const SLAB_MOST: u16 = 256;
// A book's numbers are below 2^62.
const NUMBER_RANGE: u64 = 1 << 62;

// Tells whether a block's last number is one that a sound key has: it isn't 0, which tells of no number, and below 2^62.
pub fn sound_last(fk: u64) -> bool
    ensures { result ≡ sound_last fk }
{
    fk != 0 && fk < NUMBER_RANGE
}

// Tells whether a slab of a class can stand at an offset and end at or below an end.
pub fn slab_stands(class: u8, off: u64, end: u64) -> bool
    ensures { result ≡ (leb class max_slab_class && is_block class off end) }
{
    class <= SH_MAX_SLAB_CLASS && is_slab(class, off, end)
}

// Scans a slab, by its bytes, as a key's whose head says how many numbers it has.
fn read_slab(slab: &[u8], used: u16) -> Result<Scanned, Refusal>
    requires { 2 ≤ length slab.now }
    ensures { scan_answer result ≡ answered (end_from 0) (soundly (slab_read slab.now used)) }
{
    if SLAB_MOST < used {
        return Err(Refusal::KeyUnsound);
    }
    if buffer::get_u16(slab, 0) != used {
        return Err(Refusal::KeyUnsound);
    }
    let Ok(scanned) = scripthash_scan::scan_fk_delta_stream(&slab[2..], usize::from(used)) else {
        return Err(Refusal::KeyUnsound);
    };
    if !sound_last(scanned.last) {
        return Err(Refusal::KeyUnsound);
    }
    Ok(scanned)
}

// Scans a key's slab once: how many bytes its stream takes and its last number, or 31 where it isn't sound.
pub fn slab_end(body: &[u8], mark: u64, class: u8, used: u16, off: u64) -> Result<Scanned, Refusal>
    requires { mark ≤ length body.now }
    ensures { scan_answer result ≡ answered (end_from 0) (soundly (slab_scan (body_ground body.now mark) class used off)) }
{
    if !slab_stands(class, off, mark) {
        return Err(Refusal::KeyUnsound);
    }
    let start = off as usize;
    let end = start + slab_bytes(class) as usize;
    read_slab(&body[start..end], used)
}

// Writes the numbers of a slab that reads, by its bytes, to the start of out.
fn fill_slab(slab: &[u8], out: &mut [u64])
    requires { 2 ≤ length slab.now }
    ensures { (used : ℕ) (c : Scan) → slab_read slab.now used ≡ accepted c
        → Written out.old out.new c.numbers }
{
    let used = usize::from(buffer::get_u16(slab, 0));
    scripthash_scan::fill_fk_delta_stream(&slab[2..], used, out);
}

// Reads a slab, by its bytes, in one pass where it is short: tells the bytes that its stream takes, or nothing and leaves out.
fn short_slab(slab: &[u8], used: u16, out: &mut [u64]) -> Option<usize>
    requires { 2 ≤ length slab.now }
    ensures { ShortList result out.old out.new (slab_read slab.now used) }
{
    if SLAB_MOST < used {
        return None;
    }
    if buffer::get_u16(slab, 0) != used {
        return None;
    }
    let taken = scripthash_scan::read_short_stream(
        &slab[2..],
        usize::from(used),
        NUMBER_RANGE,
        out,
    );
    if taken == 0 {
        return None;
    }
    Some(taken)
}

// What is told of a slab that was read, by its bytes, whose stream takes so many of them.
fn slab_counts(slab: &[u8], used: u16, taken: usize) -> Result<KeyCounts, Refusal>
    requires { 2 + taken ≤ length slab.now }
    ensures { (c : Scan) → slab_read slab.now used ≡ accepted c → c.taken ≡ taken
        → counts_answer result ≡ accepted (record { length = used; pages = 0; padded = slab_padded slab.now }) }
{
    Ok(KeyCounts {
        length: u64::from(used),
        pages: 0,
        padded: scripthash_stream::count_padded(&slab[2..], usize::from(used), taken) as u64,
    })
}

// Reads a slab, by its bytes, into the start of out: in one pass where it is short, else it is judged and then read.
fn slab_list(slab: &[u8], used: u16, out: &mut [u64]) -> Result<KeyCounts, Refusal>
    requires { 2 ≤ length slab.now }
    ensures { (s : Ground) (class off : ℕ) → slab_scan s class used off ≡ slab_read slab.now used
        → block_at s class off ≡ slab.now
        → KeyRead (counts_answer result) out.old out.new (soundly (content_at s (Slab class used off))) }
{
    if let Some(taken) = short_slab(slab, used, out) {
        return slab_counts(slab, used, taken);
    }
    let Scanned { taken, .. } = read_slab(slab, used)?;
    if out.len() < usize::from(used) {
        return Err(Refusal::ListTooShort);
    }
    fill_slab(slab, out);
    slab_counts(slab, used, taken)
}

// Reads a key's slab into the start of out.
pub fn read_stored(
    body: &[u8],
    mark: u64,
    class: u8,
    used: u16,
    off: u64,
    out: &mut [u64],
) -> Result<KeyCounts, Refusal>
    requires { mark ≤ length body.now }
    ensures { KeyRead (counts_answer result) out.old out.new
        (soundly (content_at (body_ground body.now mark) (Slab class used off))) }
{
    if !slab_stands(class, off, mark) {
        return Err(Refusal::KeyUnsound);
    }
    let start = off as usize;
    let end = start + slab_bytes(class) as usize;
    slab_list(&body[start..end], used, out)
}

// Writes the numbers of a sound slab to the start of out.
pub fn slab_into(body: &[u8], class: u8, off: u64, out: &mut [u64])
    requires { (class ≤ max_slab_class) × (off + slab_bytes class ≤ length body.now) }
    ensures { (mark used : ℕ) (c : Scan) → soundly (slab_scan (body_ground body.now mark) class used off) ≡ accepted c
        → Written out.old out.new c.numbers }
{
    let start = off as usize;
    let end = start + slab_bytes(class) as usize;
    fill_slab(&body[start..end], out);
}
