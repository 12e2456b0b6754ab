// What a line changes in a book: items with a space after each. One of the body begins with b and has an offset in four digits and the
// bytes from there on by runs; one of the words begins with w and has a place in two digits and the word.
use crate::memory::{Book, WORDS};
use hex_fields::{hex, part};
use text::Pieces;

// The place and the word of an item of the words; nothing of one of the body. One that is empty puts 0 to the first word.
fn word_of(item: &[u8]) -> Option<(usize, u64)> {
    match item {
        [] | [b'w', ..] => Some((
            hex(part(item, 1, 3)) as usize,
            hex(part(item, 3, item.len())),
        )),
        _ => None,
    }
}

// Makes the change of an item.
fn change(item: &[u8], book: &mut Book) {
    if let Some((place, word)) = word_of(item) {
        book.set_word(place, word);
        return;
    }
    let off = hex(part(item, 1, 5)) as usize;
    if let Some(behind) = book.body.get_mut(off..) {
        hex_fields::bytes(part(item, 5, item.len()), behind);
    }
}

// Makes the changes of a field to a book.
pub fn make(s: &[u8], book: &mut Book) {
    for item in Pieces::new(s, b' ') {
        change(item, book);
    }
}

// Puts the words of a field whose places lie behind a book's to the next book, whose places go on from there.
pub fn put_behind(s: &[u8], next: &mut Book) {
    for (place, word) in Pieces::new(s, b' ').filter_map(word_of) {
        if let Some(place) = place.checked_sub(WORDS) {
            next.set_word(place, word);
        }
    }
}
