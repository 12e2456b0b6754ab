// Cutting a list into the parts that pages hold. A part's stream is its first number, then the differences; a difference to a larger number
// counts as 0. Each part takes as many numbers as its page has room for, and the last page has less room than the others.
ghost use Rattle.std.specs.Prelude.{◌+◌, ◌≤◌, ◌<◌, ◌≡◌, length, drop};
ghost use Rattle.buffer.specs.Bytes.{overwrite};
ghost use Rattle.scripthash_cutting.specs.Cutting.{page_room, last_page_room, cutting_for, ranges_from, chunk_ranges, after_chunk_ranges};
ghost use Rattle.scripthash_cutting.specs.Cutting.{split_last, after_split_last};
ghost use Rattle.scripthash_cutting.specs.Steps.{Reached, next_part, cut_from, after_cut_from};
ghost use Rattle.scripthash_cutting.specs.Answers.{chunk_answer};

use compact::uleb128_len;
use error::Refusal;
use scripthash_layout::SH_PAGE_SIZE;

// The bytes that a page has for a stream.
const SH_PAGE_STREAM_MAX: usize = SH_PAGE_SIZE - 8;
// The bytes that a page with an extent has for a stream, as the last page of a list is.
const SH_PAGE_EXTENT_STREAM_MAX: usize = SH_PAGE_SIZE - 24;
// Every part but the last two holds at least so many numbers, since none takes more than 10 bytes.
const SH_PAGE_MIN_FKS: usize = 407;

// A part of a list: the index of its first number, and the one behind its last. An array, since a list of them is lent from C.
pub type ChunkRange = [usize; 2];

// How many bytes a page has for a stream: at least those of a last page, and at most those of a page without an extent.
#[derive(Clone, Copy)]
struct PageRoom {
    bytes: usize,
    ghost of_a_page: { (last_page_room ≤ bytes) × (bytes ≤ page_room) },
}

impl PageRoom {
    // A room of so many bytes.
    fn new(bytes: usize) -> PageRoom
        requires { (last_page_room ≤ bytes) × (bytes ≤ page_room) }
        ensures { result.bytes ≡ bytes }
    {
        PageRoom { bytes }
    }
}

// How far a part reaches: the index of the first number that doesn't fit, and the bytes of those before it.
#[derive(Clone, Copy)]
struct Reach {
    end: usize,
    used: usize,
}

// Goes on with a part of `used` bytes from index `from` while the numbers fit into a room. A difference to a larger number counts as 0.
fn extend_part(fks: &[u64], from: usize, used: usize, room: PageRoom) -> Reach
    requires { (0 < from) × (from ≤ length fks.now) × (used ≤ room.bytes) }
    ensures { Reached fks.now from used room.bytes result.end result.used }
{
    let mut bytes = used;
    for i in from..fks.len() {
        let more = bytes + uleb128_len(fks[i].saturating_sub(fks[i - 1]));
        if room.bytes < more {
            return Reach {
                end: i,
                used: bytes,
            };
        }
        bytes = more;
    }
    Reach {
        end: fks.len(),
        used: bytes,
    }
}

// The end of the part that starts at `start`: as far as the room goes, or as a last page has room where that reaches the list's end.
fn part_end(fks: &[u64], start: usize, room: PageRoom) -> usize
    requires { start < length fks.now }
    ensures { result ≡ start + next_part last_page_room room.bytes (drop start fks.now) }
{
    let first = uleb128_len(fks[start]);
    let last_room = PageRoom::new(SH_PAGE_EXTENT_STREAM_MAX);
    let last = extend_part(fks, start + 1, first, last_room);
    let end = last.end;
    let whole = extend_part(fks, end, last.used, room);
    if whole.end == fks.len() {
        return end;
    }
    whole.end
}

// Counts the parts from index `from` on.
fn count_parts(fks: &[u64], from: usize, room: PageRoom) -> usize
    requires { from ≤ length fks.now }
    ensures { result ≡ length (cutting_for last_page_room room.bytes (drop from fks.now)) }
{
    let mut start = from;
    let mut count: usize = 0;
    // The numbers decide how far a part goes, so no range counts the parts.
    while start < fks.len() {
        start = part_end(fks, start, room);
        count += 1;
    }
    count
}

// Writes the ranges of the parts from index `from` on to `out` from index `at` on, which has room for them. Tells the index behind them.
fn write_ranges(
    fks: &[u64],
    from: usize,
    room: PageRoom,
    out: &mut [ChunkRange],
    at: usize,
) -> usize
    requires { (from ≤ length fks.now)
        × (at + length (cutting_for last_page_room room.bytes (drop from fks.now)) ≤ length out.old) }
    ensures count { result ≡ at + length (cutting_for last_page_room room.bytes (drop from fks.now)) }
    ensures ranges { out.new
        ≡ overwrite out.old at (ranges_from from (cutting_for last_page_room room.bytes (drop from fks.now))) }
{
    let mut start = from;
    let mut count = at;
    // The numbers decide how far a part goes, so no range counts the parts.
    while start < fks.len() {
        let end = part_end(fks, start, room);
        let range = [start, end];
        out[count] = range;
        count += 1;
        start = end;
    }
    count
}

// Cuts the numbers from index `from` on for pages with a room, and writes their ranges to `out` from index `at` on. A lent list that is too
// short is left as it is. One that is long enough for any numbers needs no count beforehand.
fn cut_from(
    fks: &[u64],
    from: usize,
    room: PageRoom,
    out: &mut [ChunkRange],
    at: usize,
) -> Result<usize, Refusal>
    requires { (from ≤ length fks.now) × (at ≤ length out.old) }
    ensures answer { chunk_answer result ≡ cut_from room.bytes fks.now from (length out.old) at }
    ensures list { out.new ≡ after_cut_from room.bytes fks.now from out.old at }
{
    let free = out.len() - at;
    if free < (fks.len() - from) / SH_PAGE_MIN_FKS + 2 && free < count_parts(fks, from, room) {
        return Err(Refusal::ListTooShort);
    }
    let count = write_ranges(fks, from, room, out, at);
    Ok(count)
}

// Cuts `fks` into parts, and writes their ranges to the start of `out`. A lent list that is too short is left as it is.
pub fn sh_page_chunk_ranges(fks: &[u64], out: &mut [ChunkRange]) -> Result<usize, Refusal>
    ensures answer { chunk_answer result ≡ chunk_ranges (length out.old) fks.now }
    ensures list { out.new ≡ after_chunk_ranges out.old fks.now }
{
    cut_from(fks, 0, PageRoom::new(SH_PAGE_STREAM_MAX), out, 0)
}

// Cuts the last of the first `count` ranges of `chunks` again, so that each of its parts fits a last page, and tells how many ranges there
// are then. A last range that is empty, or leaves `fks`, is left as it is, and so is a lent list that is too short.
pub fn split_last_chunk_for_extent(
    fks: &[u64],
    chunks: &mut [ChunkRange],
    count: usize,
) -> Result<usize, Refusal>
    ensures answer { chunk_answer result ≡ split_last fks.now chunks.old count }
    ensures list { chunks.new ≡ after_split_last fks.now chunks.old count }
{
    if chunks.len() < count {
        return Err(Refusal::ListTooShort);
    }
    if count == 0 {
        return Ok(0);
    }
    let [start, end] = chunks[count - 1];
    if end <= start {
        return Ok(count);
    }
    if fks.len() < end {
        return Ok(count);
    }
    let upto = &fks[..end];
    let room = PageRoom::new(SH_PAGE_EXTENT_STREAM_MAX);
    cut_from(upto, start, room, chunks, count - 1)
}
