// The functions on free lists. The buffer of an answer is a body from 4,096 on; before that a body holds 0.
use crate::call::{Answer, BEFORE, tells, untold};
use scripthash_free::FreeHeads;

// Bytes of a body before its first block.
const FRONT: usize = 4096;

// The free heads that a list begins with, and 0 in place of those that it doesn't have.
fn heads_of(list: &[u64]) -> [u64; 9] {
    let mut heads = [0u64; 9];
    hex_fields::put(list, &mut heads);
    heads
}

// Pops a block.
fn pop(body: &[u8], list: &mut [u64], class: u8, mark: u64) -> Answer {
    let mut heads = heads_of(list);
    let mut off = BEFORE;
    let number = ouriscado::ouriscado_pop_free_head(body, &mut heads, class, mark, &mut off);
    hex_fields::put(&heads, list);
    tells(off, number)
}

// Pops a block, with the free heads by value.
fn pop_by_value(body: &[u8], list: &mut [u64], class: u8, mark: u64) -> Answer {
    let heads = heads_of(list);
    let got = scripthash_free::pop_free_head(body, FreeHeads { heads }, class, mark);
    hex_fields::put(&got.free.heads, list);
    match got.answer {
        Ok(Some(off)) => tells(off, 0),
        Ok(None) => untold(0),
        Err(refusal) => untold(u32::from(refusal)),
    }
}

// Carves a gap, with the free heads by value.
fn carve_by_value(body: &mut [u8], list: &mut [u64], from: u64, to: u64) -> u32 {
    let heads = heads_of(list);
    let got = scripthash_free::carve_gap_into_freelist(body, FreeHeads { heads }, from, to);
    hex_fields::put(&got.free.heads, list);
    match got.answer {
        Ok(()) => 0,
        Err(refusal) => u32::from(refusal),
    }
}

// Pushes a block.
fn push(body: &mut [u8], list: &mut [u64], class: u8, off: u64) -> u32 {
    let mut heads = heads_of(list);
    let number = ouriscado::ouriscado_push_free_head(body, &mut heads, class, off);
    hex_fields::put(&heads, list);
    number
}

// Carves a gap.
fn carve(body: &mut [u8], list: &mut [u64], from: u64, to: u64) -> u32 {
    let mut heads = heads_of(list);
    let number = ouriscado::ouriscado_carve_gap_into_freelist(body, &mut heads, from, to);
    hex_fields::put(&heads, list);
    number
}

// Calls a function on a body and the free heads that a list begins with.
fn call_on(function: u64, a: u64, b: u64, body: &mut [u8], list: &mut [u64]) -> Answer {
    match function {
        20 => pop(body, list, (a % 0x100) as u8, b),
        0xf1 => pop_by_value(body, list, (a % 0x100) as u8, b),
        19 => untold(push(body, list, (a % 0x100) as u8, b)),
        0xf2 => untold(carve_by_value(body, list, a, b)),
        _ => untold(carve(body, list, a, b)),
    }
}

// Calls the function of a number: 19 pushes, 20 pops, F1 and F2 pop and carve with the heads by value, others carve; nothing where there
// are more bytes than a body has behind its front.
pub fn call(function: u64, given: [u64; 4], bytes: &mut [u8], list: &mut [u64]) -> Option<Answer> {
    let mut room = [0u8; 2 * FRONT];
    let body = room.get_mut(..FRONT + bytes.len())?;
    body[FRONT..].copy_from_slice(bytes);
    let answer = call_on(function, given[0], given[1], body, list);
    bytes.copy_from_slice(&body[FRONT..]);
    Some(answer)
}
