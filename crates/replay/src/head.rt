// The functions on head words, each on numbers alone.
use crate::call::{Answer, BEFORE, tells};

// Packs the head value of a kind, a class, a used and a place.
fn pack8(kind: u64, class: u8, used: u16, place: u64) -> Answer {
    let mut word = BEFORE;
    let number = match kind {
        0 => ouriscado::ouriscado_pack8_empty(&mut word),
        1 => ouriscado::ouriscado_pack8_inline(place, (used % 0x100) as u8, &mut word),
        2 => ouriscado::ouriscado_pack8_slab(class, used, place, &mut word),
        _ => ouriscado::ouriscado_pack8_extent(place, &mut word),
    };
    tells(word, number)
}

// The word of eight bytes after a call: those that a refused call left as they were are told as 0.
fn word_after(number: u32, b: [u8; 8]) -> u64 {
    let word = u64::from_le_bytes(b);
    if number != 0 && word == BEFORE {
        return 0;
    }
    word
}

// Packs the head value of a kind, a class, a used and a place into eight bytes.
fn pack8_bytes(kind: u64, class: u8, used: u16, place: u64) -> Answer {
    let mut out = BEFORE.to_le_bytes();
    let number = match kind {
        0 => ouriscado::ouriscado_pack8_bytes_empty(&mut out),
        1 => ouriscado::ouriscado_pack8_bytes_inline(place, (used % 0x100) as u8, &mut out),
        2 => ouriscado::ouriscado_pack8_bytes_slab(class, used, place, &mut out),
        _ => ouriscado::ouriscado_pack8_bytes_extent(place, &mut out),
    };
    tells(word_after(number, out), number)
}

// Unpacks the eight bytes of a word.
fn unpack8_bytes(w: u64) -> Answer {
    let buf = w.to_le_bytes();
    let mut kind = BEFORE as u8;
    let mut class = BEFORE as u8;
    let mut used = BEFORE as u16;
    let mut place = BEFORE;
    let number = ouriscado::ouriscado_unpack8_bytes(
        &buf, &mut kind, &mut class, &mut used, &mut place,
    );
    Answer {
        told: [u64::from(kind), u64::from(class), u64::from(used), place],
        refusal: number,
    }
}

// Unpacks a word.
fn unpack8(w: u64) -> Answer {
    let mut kind = BEFORE as u8;
    let mut class = BEFORE as u8;
    let mut used = BEFORE as u16;
    let mut place = BEFORE;
    let number = ouriscado::ouriscado_unpack8(w, &mut kind, &mut class, &mut used, &mut place);
    Answer {
        told: [u64::from(kind), u64::from(class), u64::from(used), place],
        refusal: number,
    }
}

// Calls the function of a number on head words.
pub fn call(function: u64, given: [u64; 4]) -> Answer {
    let class = (given[1] % 0x100) as u8;
    let used = (given[2] % 0x1_0000) as u16;
    match function {
        3 => pack8(given[0], class, used, given[3]),
        4 => pack8_bytes(given[0], class, used, given[3]),
        5 => unpack8(given[0]),
        _ => unpack8_bytes(given[0]),
    }
}
