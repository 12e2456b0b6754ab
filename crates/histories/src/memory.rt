// The memory of a book: its body, its state and its head words.

// The most heads, and the most desks of a list that is lent.
pub const HEADS: usize = 6;

pub const DESKS: usize = 32;
// The bytes of the largest body, and the most numbers of a list.
pub const BODY: usize = 61440;

pub const NUMBERS: usize = 16384;
// The words of a book: its mark, its free heads, its counts and its head words.
pub const WORDS: usize = 65;

// A book with the largest body.
#[derive(PartialEq, Drop)]
pub struct Book {
    pub body: [u8; BODY],
    pub mark: u64,
    pub free: [u64; 9],
    pub counts: [u64; 49],
    pub heads: [u64; HEADS],
}

impl Book {
    // Before a history begins.
    pub fn new() -> Self {
        Book {
            body: [0; BODY],
            mark: 0,
            free: [0; 9],
            counts: [0; 49],
            heads: [0; HEADS],
        }
    }

    // Puts a word to its place among the mark, the free heads, the counts and the head words, in this order. A book has WORDS of them, and
    // another place puts nothing.
    pub fn set_word(&mut self, place: usize, word: u64) {
        match place {
            0 => self.mark = word,
            1..=9 => self.free[place - 1] = word,
            10..=58 => self.counts[place - 10] = word,
            59..=64 => self.heads[place - 59] = word,
            _ => {}
        }
    }
}
