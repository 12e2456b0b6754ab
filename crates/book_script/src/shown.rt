// What a book holds: the place of each key, the mark and the freed blocks.
use crate::said::Place;
use std::io;

// Writes the place of a key, which a head word stores.
fn show_key<P: Print>(rt: &P, key: usize, word: u64) -> io::Result<()> {
    print!(rt; "key {key}: ")?;
    match scripthash_layout::unpack8(word) {
        Ok(place) => println!(rt; "{}", Place(place)),
        Err(refusal) => println!(rt; "no place, refused {}", u32::from(refusal)),
    }
}

// Writes the place of each key, a line for each.
pub fn places<P: Print>(rt: &P, heads: &[u64]) -> io::Result<()> {
    for (key, word) in heads.iter().enumerate() {
        show_key(rt, key, *word)?;
    }
    Ok(())
}

// The offset of the freed block behind one, and 0 where there is none.
fn freed_behind(body: &[u8], off: u64) -> u64 {
    let size = body.len() as u64;
    if size < 8 || size - 8 < off {
        return 0;
    }
    buffer::get_u64(body, off as usize)
}

// Writes the offsets of freed blocks, from a free head on; no more than a body has bytes, since a list that loops has no end.
fn show_blocks<P: Print>(rt: &P, body: &[u8], head: u64) -> io::Result<()> {
    let mut off = head;
    for _ in 0..body.len() {
        if off == 0 {
            break;
        }
        print!(rt; " {off}")?;
        off = freed_behind(body, off);
    }
    Ok(())
}

// Writes the mark, and a line for each class that has freed blocks.
pub fn space<P: Print>(rt: &P, body: &[u8], mark: u64, free: &[u64; 9]) -> io::Result<()> {
    println!(rt; "mark {mark}")?;
    for (class, head) in free.iter().enumerate() {
        if *head != 0 {
            print!(rt; "freed, class {class}:")?;
            show_blocks(rt, body, *head)?;
            rt.write_all(b"\n")?;
        }
    }
    Ok(())
}
