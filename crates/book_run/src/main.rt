// Runs whole lists of calls by `run_calls`, whose answers are proved to be the plain book's. Each line of standard input is a list: the
// bytes of the body, the heads, the room for answers, and the words of the calls (`book_words` spells them). Writes the words of the
// answers; a line that isn't numbers is a title, and is written. All keys are desk 0's.
#![tactic(auto)]

ghost use Rattle.std.specs.Prelude.{◌≤◌, length};

use book_calls::NotRun;
use std::io;
use std::io::Read;
use text::{Numbers, Pieces, Unheard};

// The most bytes of the input, of which the rest isn't read.
const INPUT_BYTES: usize = 65536;

// The most bytes of a body, heads, and words of calls and answers.
const BODY_BYTES: usize = 16384;

const HEADS: usize = 4;

const WORDS: usize = 1024;

// Runs the calls of some words on a book that has so much memory, and writes what they answered.
fn run<P: Print>(
    rt: &P,
    body: &mut [u8],
    heads: &mut [u64],
    calls: &[u64],
    answers: &mut [u64],
) -> io::Result<()> {
    let mut mark: u64 = 0;
    let mut free = [0u64; 9];
    let mut counts = [0u64; 49];
    let desks = [0u8; HEADS];
    let Some(desks) = desks.get(..heads.len()) else {
        return Ok(());
    };
    match book_calls::run_calls(
        body,
        heads,
        &mut mark,
        &mut free,
        &mut counts,
        desks,
        calls,
        answers,
    ) {
        Ok(len) => println!(rt; "ran:{}", Numbers(answers.get(..len).unwrap_or(&[]))),
        Err(NotRun::Unspelled) => print!(rt; "these words spell no calls\n"),
        Err(NotRun::Refused(refusal)) => {
            print!(rt; "nothing was run:")?;
            println!(rt; " refused {}", u32::from(refusal))
        }
    }
}

// Runs a list, where it fits the most memory.
fn run_list<P: Print>(rt: &P, list: &[u64]) -> io::Result<()> {
    let [bytes, keys, room, calls @ ..] = list else {
        return Ok(());
    };
    let mut body = [165u8; BODY_BYTES];
    let mut heads = [7u64; HEADS];
    let mut answers = [0u64; WORDS];
    let Some(body) = body.get_mut(..*bytes as usize) else {
        return Ok(());
    };
    let Some(heads) = heads.get_mut(..*keys as usize) else {
        return Ok(());
    };
    let Some(answers) = answers.get_mut(..*room as usize) else {
        return Ok(());
    };
    run(rt, body, heads, calls, answers)
}

// Runs the list of a line, whose words are read into lent room.
fn run_line<P: Print>(rt: &P, line: &[u8], list: &mut [u64]) -> io::Result<()> {
    match decimal::numbers_into(line, 0, list) {
        Ok(count) => run_list(rt, list.get(..count).unwrap_or(&[])),
        Err(_) => {
            rt.write_all(line)?;
            rt.write_all(b"\n")
        }
    }
}

// Reads an input to the start of lent room, as far as that reaches, and tells how many bytes. Where reading fails the input ends.
fn read_input<I: Read>(input: &mut I, room: &mut [u8]) -> usize
    ensures { result ≤ length room.old }
{
    let mut count = 0;
    for _ in 0..room.len() {
        match input.read(&mut room[count..]) {
            Ok(0) | Err(_) => break,
            Ok(read) => count += read,
        }
        if count == room.len() {
            break;
        }
    }
    count
}

// Runs the lists of an input, a line each. The room for the input is no memory that could be refused.
fn run_all<P: Print, I: Read>(rt: &P, input: &mut I) -> io::Result<()> {
    let mut text = [0u8; INPUT_BYTES];
    let len = read_input(input, &mut text);
    let mut list = [0u64; WORDS];
    for line in Pieces::new(&text[..len], b'\n') {
        run_line(rt, line, &mut list)?;
    }
    Ok(())
}

// What can't be written is lost, and the next list is run.
fn main(rt: HostRuntime) {
    let _ = run_all(&Unheard(&rt), &mut rt.stdin());
}
