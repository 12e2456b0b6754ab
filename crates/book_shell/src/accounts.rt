// The book of a script, with what was told of its desks.
use crate::turned::Turned;
use book_append::AppendedTo;
use book_desks::desk_of;
use book_extend::ExtendedBy;
use book_read::BookRead;
use book_rules::SlabFit;
use book_script::{Unread, WORK_BYTES};
use book_start::Verdict;
use error::Refusal;
use std::io;

// The first so many of some things; all where there are fewer.
fn first<T>(all: &[T], count: usize) -> &[T] {
    &all[..count.min(all.len())]
}

// The same, to be written, or to be read while other memory of the book is written. A ghost field that says how many heads there are was
// tried, and isn't proved behind a slice that is lent.
fn first_mut<T>(all: &mut [T], count: usize) -> &mut [T] {
    let count = count.min(all.len());
    &mut all[..count]
}

// The book of a script, in lent memory. A book has no body and no keys until they are asked for, and no keys after another body was.
#[derive(Drop)]
pub struct Book<'a> {
    // The largest body.
    body: &'a mut [u8],
    // How many bytes of it were asked for.
    size: usize,
    // The head words of the most keys, and the desk of each.
    heads: &'a mut [u64],
    desks: &'a mut [u8],
    // Below which key lines gave keys to desks.
    told: usize,
    // How many keys were asked for.
    keys: usize,
    mark: u64,
    free: [u64; 9],
    counts: [u64; 49],
    reserve: [u64; 16],
    ceiling: [u64; 16],
}

impl<'a> Book<'a> {
    // Before a script asks for a book, in memory for the largest body and the most keys, all of desk 0.
    pub fn new(body: &'a mut [u8], heads: &'a mut [u64], desks: &'a mut [u8]) -> Self {
        Book {
            body,
            size: 0,
            heads,
            desks,
            told: 0,
            keys: 0,
            mark: 0,
            free: [0; 9],
            counts: [0; 49],
            reserve: [0; 16],
            ceiling: [u64::MAX; 16],
        }
    }

    // A body of so many bytes is asked for, which holds what the last one left there. What was told of desks is forgotten: all keys are of
    // desk 0, which has no reserve, and gets all pages.
    pub fn set_body(&mut self, bytes: usize) {
        self.size = bytes;
        self.keys = 0;
        first_mut(self.desks, self.told).fill(0);
        self.told = 0;
        self.reserve = [0; 16];
        self.ceiling = [u64::MAX; 16];
    }

    // There is a body.
    fn has_body(&self) -> Result<(), Unread<'static>> {
        if self.size == 0 {
            return Err(Unread::NoBody);
        }
        Ok(())
    }

    // There is a body, and no keys were asked for yet.
    fn is_unmade(&self) -> Result<(), Unread<'static>> {
        self.has_body()?;
        if self.keys != 0 {
            return Err(Unread::MadeAlready);
        }
        Ok(())
    }

    // There is a book.
    pub fn is_made(&self) -> Result<(), Unread<'static>> {
        if self.keys == 0 {
            return Err(Unread::NoBook);
        }
        Ok(())
    }

    // Gives a key to a desk.
    pub fn give(&mut self, key: usize, desk: usize) -> Result<(), Unread<'static>> {
        self.is_unmade()?;
        if let Some(of_key) = self.desks.get_mut(key) {
            *of_key = (desk % 0x100) as u8;
            self.told = self.told.max(key.saturating_add(1));
        }
        Ok(())
    }

    // Keeps pages for a desk.
    pub fn reserve(&mut self, desk: usize, pages: u64) -> Result<(), Unread<'static>> {
        self.is_unmade()?;
        if let Some(kept) = self.reserve.get_mut(desk) {
            *kept = pages;
        }
        Ok(())
    }

    // Sets the most pages that a desk gets.
    pub fn limit(&mut self, desk: usize, pages: u64) -> Result<(), Unread<'static>> {
        self.is_unmade()?;
        if let Some(most) = self.ceiling.get_mut(desk) {
            *most = pages;
        }
        Ok(())
    }
}

// The calls of a book, each for the desk of its key.
impl Book<'_> {
    // Makes the book fresh with so many keys, and tells the bytes of its body. Where that is refused, the state holds 0.
    pub fn make(&mut self, keys: usize) -> Result<usize, Turned<'static>> {
        self.has_body()?;
        self.keys = keys;
        self.mark = 0;
        self.free = [0; 9];
        self.counts = [0; 49];
        let size = self.size;
        book_start::fresh(
            first_mut(self.body, size),
            first_mut(self.heads, keys),
            &mut self.mark,
            &mut self.free,
            &mut self.counts,
            first_mut(self.desks, keys),
            &self.reserve,
            &self.ceiling,
        )?;
        Ok(size)
    }

    // Loads a list onto a key, and tells how many pages that took.
    pub fn load(&mut self, fit: SlabFit, key: u64, list: &[u64]) -> Result<u64, Refusal> {
        let (size, keys) = (self.size, self.keys);
        let desk = desk_of(first(self.desks, keys), key);
        book_load::load(
            first_mut(self.body, size),
            first_mut(self.heads, keys),
            &mut self.mark,
            &mut self.free,
            &mut self.counts,
            desk,
            fit,
            key,
            list,
        )
    }

    // Appends a number to a key.
    pub fn append(&mut self, key: u64, n: u64) -> Result<AppendedTo, Refusal> {
        let (size, keys) = (self.size, self.keys);
        let desk = desk_of(first(self.desks, keys), key);
        book_append::append(
            first_mut(self.body, size),
            first_mut(self.heads, keys),
            &mut self.mark,
            &mut self.free,
            &mut self.counts,
            desk,
            key,
            n,
        )
    }

    // Appends numbers to a key one after another, up to the first that is refused.
    pub fn extend(&mut self, key: u64, list: &[u64]) -> Result<ExtendedBy, Refusal> {
        let (size, keys) = (self.size, self.keys);
        let desk = desk_of(first(self.desks, keys), key);
        book_extend::extend(
            first_mut(self.body, size),
            first_mut(self.heads, keys),
            &mut self.mark,
            &mut self.free,
            &mut self.counts,
            desk,
            key,
            list,
        )
    }

    // Reads a key into the start of a list, where there is room for all of it.
    pub fn read(&self, key: u64, room: usize, list: &mut [u64]) -> Result<BookRead, Refusal> {
        let lent = first_mut(list, room);
        book_read::read(self.body(), self.heads(), self.mark, key, lent)
    }

    // Empties a key, and tells how many numbers it had.
    pub fn drop_key(&mut self, key: u64) -> Result<u64, Refusal> {
        let (size, keys) = (self.size, self.keys);
        let desk = desk_of(first(self.desks, keys), key);
        book_drop::drop(
            first_mut(self.body, size),
            first_mut(self.heads, keys),
            &mut self.mark,
            &mut self.free,
            &mut self.counts,
            desk,
            key,
        )
    }

    // Judges whether the book is a good start.
    pub fn check(&self) -> Result<Verdict, Refusal> {
        let mut work = [0u8; WORK_BYTES];
        book_start::judge_start(
            self.body(),
            self.heads(),
            self.mark,
            self.free,
            &self.counts,
            first(self.desks, self.keys),
            &mut work,
        )
    }

    // The bytes of the body.
    fn body(&self) -> &[u8] {
        first(self.body, self.size)
    }

    // The head words of the keys.
    pub fn heads(&self) -> &[u64] {
        first(self.heads, self.keys)
    }

    // Writes the mark and the freed blocks.
    pub fn show_space<P: Print>(&self, rt: &P) -> io::Result<()> {
        book_script::space(rt, self.body(), self.mark, &self.free)
    }
}
