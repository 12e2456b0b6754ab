// The functions by their numbers in the text, each on numbers, a buffer and a list: those that read, those that write the buffer, those
// that write the list, and those that write both. Out-parameters hold
// BEFORE before a call, and 0 after one that is refused. The numbers are the files' own names of the functions, and each stands in a match
// alone: an enum would say each of them twice.
use crate::{cut, free, head, page};

pub const BEFORE: u64 = 0x5a;

// What a call answers: the numbers that it tells, and the number of its refusal, or 0.
#[derive(Clone, Copy)]
pub struct Answer {
    pub told: [u64; 4],
    pub refusal: u32,
}

// The answer of a call that tells nothing.
pub fn untold(refusal: u32) -> Answer {
    Answer {
        told: [0; 4],
        refusal,
    }
}

// The answer of a call that tells a number.
pub fn tells(n: u64, refusal: u32) -> Answer {
    tells_two(n, 0, refusal)
}

// The answer of a call that tells two numbers.
pub fn tells_two(a: u64, b: u64, refusal: u32) -> Answer {
    Answer {
        told: [a, b, 0, 0],
        refusal,
    }
}

// Chooses a class: by bytes, by count, with slack, or the largest that so many bytes hold.
fn choose(rule: u64, n: u64) -> Answer {
    let mut class = BEFORE as u8;
    let count = (n % 0x1_0000_0000) as u32;
    let some = match rule {
        10 => ouriscado::ouriscado_slab_class_for_packed_len(n as usize, &mut class),
        11 => ouriscado::ouriscado_slab_class_for_n_fks(count, &mut class),
        12 => ouriscado::ouriscado_slab_class_for_n_fks_with_slack(count, &mut class),
        _ => ouriscado::ouriscado_largest_reloc_class_le(n, &mut class),
    };
    tells_two(u64::from(some), u64::from(class), 0)
}

// Calls a function on one number that is never refused and tells one.
fn number_of(function: u64, n: u64) -> u64 {
    match function {
        0 => ouriscado::ouriscado_uleb128_len(n) as u64,
        7 => ouriscado::ouriscado_payload_start(n as usize),
        8 => ouriscado::ouriscado_slab_cap((n % 0x100) as u8) as u64,
        _ => ouriscado::ouriscado_slab_bytes((n % 0x100) as u8),
    }
}

// Calls a function on numbers.
fn on_numbers(function: u64, given: [u64; 4]) -> Answer {
    match function {
        3..=6 => head::call(function, given),
        10..=12 | 18 => choose(function, given[0]),
        _ => tells(number_of(function, given[0]), 0),
    }
}

// Reads a number. Whether its form is the shortest isn't told by the source, and isn't compared.
fn read_uleb128(bytes: &[u8]) -> Answer {
    let mut value = BEFORE;
    let mut len = BEFORE as usize;
    let mut shortest = false;
    let number = ouriscado::ouriscado_read_uleb128(bytes, &mut value, &mut len, &mut shortest);
    tells_two(value, len as u64, number)
}

// Scans a stream.
fn scan_fk_delta_stream(bytes: &[u8], n: u64) -> Answer {
    match scripthash_scan::scan_fk_delta_stream(bytes, n as usize) {
        Ok(end) => tells_two(end.taken as u64, end.last, 0),
        Err(refusal) => untold(u32::from(refusal)),
    }
}

// Calls a function that only reads the buffer.
fn reading(function: u64, n: u64, bytes: &[u8]) -> Option<Answer> {
    match function {
        1 => Some(read_uleb128(bytes)),
        0xf0 => Some(scan_fk_delta_stream(bytes, n)),
        _ => page::read(function, bytes),
    }
}

// Writes a number.
fn write_uleb128_into(n: u64, bytes: &mut [u8]) -> Answer {
    let mut len = BEFORE as usize;
    let number = ouriscado::ouriscado_write_uleb128_into(bytes, n, &mut len);
    tells(len as u64, number)
}

// Writes a stream.
fn encode_fk_delta_stream_into(bytes: &mut [u8], list: &[u64]) -> Answer {
    let mut len = BEFORE as usize;
    let number = ouriscado::ouriscado_encode_fk_delta_stream_into(bytes, list, &mut len);
    tells(len as u64, number)
}

// Writes a slab's payload.
fn encode_slab_payload_into(bytes: &mut [u8], list: &[u64]) -> Answer {
    let mut len = BEFORE as usize;
    let number = ouriscado::ouriscado_encode_slab_payload_into(bytes, list, &mut len);
    tells(len as u64, number)
}

// Calls a function that writes the buffer.
fn writing(function: u64, given: [u64; 4], bytes: &mut [u8], list: &[u64]) -> Answer {
    match function {
        2 => write_uleb128_into(given[0], bytes),
        13 => encode_fk_delta_stream_into(bytes, list),
        15 => encode_slab_payload_into(bytes, list),
        44..=47 => page::write(function, given, bytes, list),
        _ => untold(page::set(function, given[0], given[1], bytes)),
    }
}

// Reads a stream. The source doesn't count padded numbers, here or below, so that they aren't compared.
fn decode_fk_delta_stream_into(bytes: &[u8], n: u64, list: &mut [u64]) -> Answer {
    let mut taken = BEFORE as usize;
    let mut padded = BEFORE as usize;
    let number = ouriscado::ouriscado_decode_fk_delta_stream_into(
        bytes,
        n as usize,
        list,
        &mut taken,
        &mut padded,
    );
    tells(taken as u64, number)
}

// Reads a slab's payload.
fn decode_slab_payload_into(bytes: &[u8], list: &mut [u64]) -> Answer {
    let mut used = BEFORE as usize;
    let mut len = BEFORE as usize;
    let mut padded = BEFORE as usize;
    let number = ouriscado::ouriscado_decode_slab_payload_into(
        bytes,
        list,
        &mut used,
        &mut len,
        &mut padded,
    );
    tells_two(used as u64, len as u64, number)
}

// Calls a function that writes the list.
fn listing(function: u64, given: [u64; 4], bytes: &[u8], list: &mut [u64]) -> Option<Answer> {
    match function {
        14 => Some(decode_fk_delta_stream_into(bytes, given[0], list)),
        16 => Some(decode_slab_payload_into(bytes, list)),
        42 => Some(page::entries_into(bytes, list)),
        43 => Some(page::decode_slice_into(bytes, list)),
        _ => cut::call(function, given, list),
    }
}

// Calls the function of a number; nothing where it can't be called so.
pub fn call(function: u64, given: [u64; 4], bytes: &mut [u8], list: &mut [u64]) -> Option<Answer> {
    match function {
        0 | 3..=12 | 18 => Some(on_numbers(function, given)),
        2 | 13 | 15 | 27..=29 | 33 | 35 | 37 | 39 | 44..=47 => {
            Some(writing(function, given, bytes, list))
        }
        14 | 16 | 17 | 22 | 42 | 43 => listing(function, given, bytes, list),
        19..=21 | 0xf1 | 0xf2 => free::call(function, given, bytes, list),
        _ => reading(function, given[0], bytes),
    }
}
