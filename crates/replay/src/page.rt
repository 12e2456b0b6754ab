// The functions on pages. The buffer of an answer is the page.
use crate::call::{Answer, BEFORE, tells, tells_two, untold};

// Reads a link.
fn read_packed(page: &[u8]) -> Answer {
    let mut last = true;
    let mut off = BEFORE;
    let number = ouriscado::ouriscado_sh_page_read_packed(page, &mut last, &mut off);
    tells_two(last as u64, off, number)
}

// Asks whether a page is LAST.
fn is_last(page: &[u8]) -> Answer {
    let mut last = true;
    let number = ouriscado::ouriscado_sh_page_is_last(page, &mut last);
    tells(last as u64, number)
}

// Asks for an offset: the first page's, the next one's, or the last number.
fn offset(which: u64, page: &[u8]) -> Answer {
    let mut off = BEFORE;
    let number = match which {
        25 => ouriscado::ouriscado_sh_page_first_off(page, &mut off),
        26 => ouriscado::ouriscado_sh_page_next(page, &mut off),
        _ => ouriscado::ouriscado_sh_page_last_fk(page, &mut off),
    };
    tells(off, number)
}

// Asks for a count: where the stream starts, the capacity, or the numbers.
fn count(which: u64, page: &[u8]) -> Answer {
    let mut n = BEFORE as usize;
    let number = match which {
        30 => ouriscado::ouriscado_sh_page_stream_off(page, &mut n),
        31 => ouriscado::ouriscado_sh_page_stream_cap(page, &mut n),
        _ => ouriscado::ouriscado_sh_page_n_fks(page, &mut n),
    };
    tells(n as u64, number)
}

// Asks for the extent.
fn extent(page: &[u8]) -> Answer {
    let mut base = BEFORE;
    let mut n = BEFORE as u32;
    let number = ouriscado::ouriscado_sh_page_extent(page, &mut base, &mut n);
    tells_two(base, n as u64, number)
}

// Asks for creates.
fn extent_creates(page: &[u8]) -> Answer {
    let mut n = BEFORE as u32;
    let number = ouriscado::ouriscado_sh_page_extent_creates(page, &mut n);
    tells(n as u64, number)
}

// Scans a stream to its end.
fn stream_tail(page: &[u8]) -> Answer {
    let mut taken = BEFORE as usize;
    let mut last = BEFORE;
    let number = ouriscado::ouriscado_sh_page_stream_tail(page, &mut taken, &mut last);
    tells_two(taken as u64, last, number)
}

// Reads the numbers of a page. The source doesn't count padded ones, here or below, so that they aren't compared.
pub fn entries_into(page: &[u8], list: &mut [u64]) -> Answer {
    let mut n = BEFORE as usize;
    let mut padded = BEFORE as usize;
    let number = ouriscado::ouriscado_sh_page_entries_into(page, list, &mut n, &mut padded);
    tells(n as u64, number)
}

// Reads the numbers of a page, and the next page's offset.
pub fn decode_slice_into(page: &[u8], list: &mut [u64]) -> Answer {
    let mut n = BEFORE as usize;
    let mut next = BEFORE;
    let mut padded = BEFORE as usize;
    let number = ouriscado::ouriscado_sh_page_decode_slice_into(
        page,
        list,
        &mut n,
        &mut next,
        &mut padded,
    );
    tells_two(n as u64, next, number)
}

// Appends a number.
fn try_append(page: &mut [u8], fk: u64) -> Answer {
    let mut appended = true;
    let number = ouriscado::ouriscado_sh_page_try_append(page, fk, &mut appended);
    tells(appended as u64, number)
}

// Writes a stream.
fn write_stream(page: &mut [u8], list: &[u64]) -> Answer {
    let mut len = BEFORE as usize;
    let number = ouriscado::ouriscado_sh_page_write_stream(page, list, &mut len);
    tells(len as u64, number)
}

// Packs a page that names an extent.
fn pack_extent(page: &mut [u8], list: &[u64], given: [u64; 4]) -> u32 {
    let n = (given[2] % 0x1_0000_0000) as u32;
    ouriscado::ouriscado_sh_page_pack_extent_last_fks(page, list, given[1], n, given[0])
}

// Sets a field.
pub fn set(function: u64, a: u64, b: u64, page: &mut [u8]) -> u32 {
    match function {
        27 => ouriscado::ouriscado_sh_page_write_packed(page, a != 0, b),
        28 => ouriscado::ouriscado_sh_page_set_last(page, b),
        29 => ouriscado::ouriscado_sh_page_set_next(page, b),
        33 => ouriscado::ouriscado_sh_page_set_extent(page, a, (b % 0x1_0000_0000) as u32),
        35 => ouriscado::ouriscado_sh_page_set_extent_creates(page, (a % 0x1_0000_0000) as u32),
        37 => ouriscado::ouriscado_sh_page_set_n_fks(page, (a % 0x1_0000) as u16),
        _ => ouriscado::ouriscado_sh_page_init_empty(page),
    }
}

// Reads something of a page; nothing where there is no such function.
pub fn read(function: u64, page: &[u8]) -> Option<Answer> {
    match function {
        23 => Some(read_packed(page)),
        24 => Some(is_last(page)),
        25 | 26 | 41 => Some(offset(function, page)),
        30 | 31 | 36 => Some(count(function, page)),
        32 => Some(extent(page)),
        34 => Some(extent_creates(page)),
        38 => Some(untold(ouriscado::ouriscado_sh_page_require_delta(page))),
        40 => Some(stream_tail(page)),
        _ => None,
    }
}

// Appends to a page, or writes a list to it.
pub fn write(function: u64, given: [u64; 4], page: &mut [u8], list: &[u64]) -> Answer {
    match function {
        44 => try_append(page, given[0]),
        45 => write_stream(page, list),
        46 => untold(ouriscado::ouriscado_sh_page_pack_fks(page, list, given[0])),
        _ => untold(pack_extent(page, list, given)),
    }
}
