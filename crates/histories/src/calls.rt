// The calls of lines, each on so much of body and heads as its line says, and with what the line tells of desks. A call is given how many
// heads there are, the key, and an append's number or a read's room; fresh the reserves and ceilings.
use crate::desks::{Appended, BEFORE, Counted, Desks, EachDesk, KeyDesk};
use crate::memory::{Book, DESKS, NUMBERS};
use hex_fields::{field, first_numbers, hex, part};

// What a line does.
#[derive(Clone, Copy, PartialEq, Eq)]
pub enum Kind {
    Fresh,
    Load,
    Append,
    Read,
    Drop,
    LoadTight,
    // Somebody else wrote the book.
    Written,
    // A history begins.
    Begins,
}

// What a line does, by its number: that of a call of the core is 16 above the book's.
pub fn kind_of(line: &[u8]) -> Option<Kind> {
    match hex(part(line, 0, 2)) {
        0x30 => Some(Kind::Fresh),
        0x31 | 0x41 => Some(Kind::Load),
        0x32 | 0x42 => Some(Kind::Append),
        0x33 | 0x43 => Some(Kind::Read),
        0x34 | 0x44 => Some(Kind::Drop),
        0x35 => Some(Kind::Written),
        0x36 => Some(Kind::Begins),
        0x37 | 0x47 => Some(Kind::LoadTight),
        _ => None,
    }
}

// What a call answers: the numbers that it tells, and the number of its refusal, or 0.
#[derive(Clone, Copy, PartialEq, Eq)]
struct Answer {
    told: [u64; 8],
    refusal: u64,
}

// The answer of a call that tells two numbers at most.
fn told(a: u64, b: u64, refusal: u32) -> Answer {
    Answer {
        told: [a, b, 0, 0, 0, 0, 0, 0],
        refusal: u64::from(refusal),
    }
}

// The answer that a line has.
fn wanted(line: &[u8]) -> Answer {
    Answer {
        told: first_numbers(field(line, 4)),
        refusal: hex(part(line, 2, 4)),
    }
}

// Loads the list of a line, with a spare slot or tight.
fn load<D: Desks>(
    desks: &D,
    line: &[u8],
    tight: bool,
    key: u64,
    body: &mut [u8],
    heads: &mut [u64],
    mark: &mut u64,
    free: &mut [u64; 9],
    counts: &mut [u64; 49],
) -> Option<Answer> {
    let mut room = [0u64; NUMBERS];
    let count = hex_fields::numbers(field(line, 3), &mut room);
    let list = room.get(..count)?;
    let mut pages = BEFORE;
    let refusal = if tight {
        desks.load_tight(body, heads, mark, free, counts, key, list, &mut pages)
    } else {
        desks.load(body, heads, mark, free, counts, key, list, &mut pages)
    };
    Some(told(pages, 0, refusal))
}

// Appends a number.
fn append<D: Desks>(
    desks: &D,
    key: u64,
    n: u64,
    body: &mut [u8],
    heads: &mut [u64],
    mark: &mut u64,
    free: &mut [u64; 9],
    counts: &mut [u64; 49],
) -> Answer {
    let mut to = Appended {
        kind: BEFORE as u8,
        class: BEFORE as u8,
        used: BEFORE as u16,
        place: BEFORE,
        rewritten: BEFORE,
    };
    let refusal = desks.append(body, heads, mark, free, counts, key, n, &mut to);
    Answer {
        told: [
            u64::from(to.kind),
            u64::from(to.class),
            u64::from(to.used),
            to.place,
            to.rewritten,
            0,
            0,
            0,
        ],
        refusal: u64::from(refusal),
    }
}

// Reads a key into the start of a list, with the room that a line says; the whole list then has to be the line's. A line doesn't tell how
// many numbers are padded, so that this isn't compared.
fn read<D: Desks>(
    desks: &D,
    line: &[u8],
    key: u64,
    room: u64,
    body: &mut [u8],
    heads: &mut [u64],
    mark: &mut u64,
    free: &mut [u64; 9],
    counts: &mut [u64; 49],
) -> Option<Answer> {
    let mut list = [0u64; NUMBERS];
    let mut counted = Counted {
        length: BEFORE,
        pages: BEFORE,
        padded: BEFORE,
    };
    let refusal = desks.read(
        body,
        heads,
        mark,
        free,
        counts,
        key,
        list.get_mut(..room as usize)?,
        &mut counted,
    );
    if list != first_numbers(field(line, 5)) {
        return None;
    }
    Some(told(counted.length, counted.pages, refusal))
}

// Drops a key.
fn drop_key<D: Desks>(
    desks: &D,
    key: u64,
    body: &mut [u8],
    heads: &mut [u64],
    mark: &mut u64,
    free: &mut [u64; 9],
    counts: &mut [u64; 49],
) -> Answer {
    let mut length = BEFORE;
    let refusal = desks.drop_key(body, heads, mark, free, counts, key, &mut length);
    told(length, 0, refusal)
}

// Makes a fresh book with the reserves and ceilings of a line, which stand behind how many heads there are.
fn fresh(
    line: &[u8],
    desks: &[u8],
    body: &mut [u8],
    heads: &mut [u64],
    mark: &mut u64,
    free: &mut [u64; 9],
    counts: &mut [u64; 49],
) -> Answer {
    let given: [u64; 33] = first_numbers(field(line, 1));
    let mut reserve = [0u64; 16];
    let mut ceiling = [0u64; 16];
    reserve.copy_from_slice(&given[1..17]);
    ceiling.copy_from_slice(&given[17..33]);
    let refusal = ouriscado::ouriscado_book_fresh(
        body, heads, mark, free, counts, desks, &reserve, &ceiling,
    );
    told(0, 0, refusal)
}

// Makes the call of a line on a key, with what the line tells of desks; nothing where there is no such call.
fn on_key<D: Desks>(
    desks: &D,
    line: &[u8],
    given: [u64; 4],
    body: &mut [u8],
    heads: &mut [u64],
    mark: &mut u64,
    free: &mut [u64; 9],
    counts: &mut [u64; 49],
) -> Option<Answer> {
    let [_, key, third, _] = given;
    match kind_of(line)? {
        Kind::Load => load(desks, line, false, key, body, heads, mark, free, counts),
        Kind::LoadTight => load(desks, line, true, key, body, heads, mark, free, counts),
        Kind::Append => Some(append(desks, key, third, body, heads, mark, free, counts)),
        Kind::Read => read(desks, line, key, third, body, heads, mark, free, counts),
        Kind::Drop => Some(drop_key(desks, key, body, heads, mark, free, counts)),
        Kind::Fresh | Kind::Written | Kind::Begins => None,
    }
}

// Puts the desks that a field names, by two digits each, to a list.
fn put_desks(told: &[u8], list: &mut [u8]) {
    let (digits, _) = told.as_chunks::<2>();
    for (desk, pair) in list.iter_mut().zip(digits) {
        *desk = (hex(pair) % 0x100) as u8;
    }
}

// Makes the call of a line: of the core, which is told a desk, or one that is told the desk of each key.
fn call(
    line: &[u8],
    given: [u64; 4],
    body: &mut [u8],
    heads: &mut [u64],
    mark: &mut u64,
    free: &mut [u64; 9],
    counts: &mut [u64; 49],
) -> Option<Answer> {
    let told = field(line, 2);
    if 0x40 <= hex(part(line, 0, 2)) {
        return on_key(
            &KeyDesk(hex(told)),
            line,
            given,
            body,
            heads,
            mark,
            free,
            counts,
        );
    }
    let mut room = [0u8; DESKS];
    let desks = room.get_mut(..told.len() / 2)?;
    put_desks(told, desks);
    if kind_of(line) == Some(Kind::Fresh) {
        return Some(fresh(line, desks, body, heads, mark, free, counts));
    }
    on_key(
        &EachDesk(desks),
        line,
        given,
        body,
        heads,
        mark,
        free,
        counts,
    )
}

// Makes the call of a line on our book; whether it answers what the line says.
pub fn agrees(line: &[u8], book: &mut Book) -> bool {
    let given: [u64; 4] = first_numbers(field(line, 1));
    let bytes = hex(part(line, 4, 8)) as usize;
    let Book {
        body,
        mark,
        free,
        counts,
        heads,
    } = book;
    let Some(body) = body.get_mut(..bytes) else {
        return false;
    };
    let Some(heads) = heads.get_mut(..given[0] as usize) else {
        return false;
    };
    call(line, given, body, heads, mark, free, counts) == Some(wanted(line))
}
