// Replays answers of the published source, which data/ holds, a file for each function, and answers at boundaries, computed apart:
// calls the function on the same input, and compares what it answers and what its buffers then hold. Writes a line for each function or
// subject.
#![tactic(auto)]

mod call;
mod cut;
mod free;
mod head;
mod page;

use call::Answer;
use hex_fields::{field, first_numbers, hex, part, title};
use std::io;
use std::rt::Files;
use text::{Pieces, Unheard};

// The most bytes and numbers of an answer.
const MOST_BYTES: usize = 4097;

const MOST_NUMBERS: usize = 65536;

// A buffer holds the bytes that a field says.
fn holds_bytes(field: &[u8], bytes: &[u8]) -> bool {
    let mut wanted = [0u8; MOST_BYTES];
    hex_fields::bytes(field, &mut wanted);
    wanted.starts_with(bytes)
}

// A list holds the numbers that a field says. The room for these is a function's of its own: it is large, and is cleared once so.
fn holds_numbers(field: &[u8], list: &[u64]) -> bool {
    let mut wanted = [0u64; MOST_NUMBERS];
    let count = hex_fields::numbers(field, &mut wanted);
    count == list.len() && wanted.starts_with(list)
}

// A buffer and a list hold what the last two fields of a line say.
fn leaves(line: &[u8], bytes: &[u8], list: &[u64]) -> bool {
    holds_bytes(field(line, 5), bytes) && holds_numbers(field(line, 6), list)
}

// An answer has the refusal of a line, and tells the numbers that the line says, of which a fifth is the refusal once more.
fn tells(line: &[u8], answer: Answer) -> bool {
    let [a, b, c, d] = answer.told;
    let told = [a, b, c, d, u64::from(answer.refusal)];
    let mut wanted = told;
    hex_fields::numbers(field(line, 4), &mut wanted);
    told[4] == hex(part(line, 2, 4)) && told == wanted
}

// Calls the function of a line, and compares what it answers and leaves.
fn agrees(line: &[u8], bytes: &mut [u8], list: &mut [u64]) -> bool {
    let function = hex(part(line, 0, 2));
    match call::call(function, first_numbers(field(line, 1)), bytes, list) {
        Some(answer) => tells(line, answer) && leaves(line, bytes, list),
        None => false,
    }
}

// Replays the answer on a line: function, refusal and the buffer's length; numbers given, bytes, list; numbers told, bytes, list.
fn replay(line: &[u8]) -> bool {
    let mut bytes = [0u8; MOST_BYTES];
    let mut list = [0u64; MOST_NUMBERS];
    hex_fields::bytes(field(line, 2), &mut bytes);
    let count = hex_fields::numbers(field(line, 3), &mut list);
    let len = hex(part(line, 4, 8)) as usize;
    match (bytes.get_mut(..len), list.get_mut(..count)) {
        (Some(bytes), Some(list)) => agrees(line, bytes, list),
        _ => false,
    }
}

// Replays a text: lines of answers, and after those of a function one with its name. Writes the line of a function: its name, how many
// answers were replayed, and how many differ.
fn replay_all<P: Print>(rt: &P, text: &[u8]) -> io::Result<()> {
    let mut answers: u64 = 0;
    let mut differ: u64 = 0;
    for line in Pieces::new(text, b'\n') {
        if let Some(name) = title(line) {
            rt.write_all(name)?;
            print!(rt; ": {answers} replayed, {differ} differ\n")?;
            answers = 0;
            differ = 0;
        } else {
            answers = answers.saturating_add(1);
            if !replay(line) {
                differ = differ.saturating_add(1);
            }
        }
    }
    Ok(())
}

// Reads a file and replays it; false where there is none.
fn replay_file<R: Print + Files + AllocGlobal>(rt: &R, name: &str) -> io::Result<bool> {
    match hex_fields::read_file(rt, name)? {
        Some(text) => {
            replay_all(&Unheard(rt), text.as_slice())?;
            Ok(true)
        }
        None => Ok(false),
    }
}

// Replays the files of the functions, each named by its number in two digits, in the order of their numbers.
fn replay_functions<R: Print + Files + AllocGlobal>(rt: &R) -> io::Result<()> {
    for function in 0..100u8 {
        let name = format!(in rt.alloc(); "{function:02}")?;
        if !replay_file(rt, name.as_str())? {
            break;
        }
    }
    Ok(())
}

// Replays the files of boundaries, each named by b and a digit.
fn replay_boundaries<R: Print + Files + AllocGlobal>(rt: &R) -> io::Result<()> {
    for k in 0..10u8 {
        let name = format!(in rt.alloc(); "b{k}")?;
        if !replay_file(rt, name.as_str())? {
            break;
        }
    }
    Ok(())
}

fn main(rt: HostRuntime) -> io::Result<()> {
    replay_functions(&rt)?;
    replay_boundaries(&rt)
}
