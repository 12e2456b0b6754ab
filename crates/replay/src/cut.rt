// The functions on cutting. The ranges that a call writes stand over the first numbers of the list, as far as it reaches; where the last
// one ends is told too.
use crate::call::{Answer, BEFORE, tells, tells_two};

// Puts the numbers of ranges over the first numbers of a list, as far as it reaches.
fn put_ranges(ranges: &[[usize; 2]], list: &mut [u64]) {
    for (place, n) in list.iter_mut().zip(ranges.iter().flatten()) {
        *place = *n as u64;
    }
}

// Calls the function of a number: 17 cuts a list, others split the last of some ranges, which two numbers give; nothing where there is too
// little room for so many ranges.
pub fn call(function: u64, given: [u64; 4], list: &mut [u64]) -> Option<Answer> {
    let range = [given[2] as usize, given[3] as usize];
    let mut ranges = [range; 24];
    let room = ranges.get_mut(..given[0] as usize)?;
    let count = given[1] as usize;
    let mut parts = BEFORE as usize;
    let number = match function {
        17 => ouriscado::ouriscado_sh_page_chunk_ranges(list, room, &mut parts),
        _ => ouriscado::ouriscado_split_last_chunk_for_extent(list, room, count, &mut parts),
    };
    if number != 0 {
        return Some(tells(parts as u64, number));
    }
    if let Some(new) = ranges.get(count.saturating_sub(1)..parts) {
        put_ranges(new, list);
    }
    let last = ranges.get(..parts).and_then(|all| all.last());
    let end = last.map_or(BEFORE, |range| range[1] as u64);
    Some(tells_two(parts as u64, end, 0))
}
