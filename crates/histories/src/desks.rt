// The calls of the account book and of its core, which differ in how they are told of desks. The C boundary has each part of a book and each
// number that goes out as a parameter of its own; a struct of the references to them was tried, and gets no proof.

// What numbers that go out hold before a call.
pub const BEFORE: u64 = 0x5a;

// What an append tells.
#[derive(Clone, Copy)]
pub struct Appended {
    pub kind: u8,
    pub class: u8,
    pub used: u16,
    pub place: u64,
    pub rewritten: u64,
}

// What a read tells besides the list.
#[derive(Clone, Copy)]
pub struct Counted {
    pub length: u64,
    pub pages: u64,
    pub padded: u64,
}

// What a call is told of desks. Each call answers the number of its refusal, or 0.
pub trait Desks {
    // Loads a list onto a key, with a spare slot.
    fn load(
        &self,
        body: &mut [u8],
        heads: &mut [u64],
        mark: &mut u64,
        free: &mut [u64; 9],
        counts: &mut [u64; 49],
        key: u64,
        list: &[u64],
        pages: &mut u64,
    ) -> u32;

    // Loads a list onto a key, tight.
    fn load_tight(
        &self,
        body: &mut [u8],
        heads: &mut [u64],
        mark: &mut u64,
        free: &mut [u64; 9],
        counts: &mut [u64; 49],
        key: u64,
        list: &[u64],
        pages: &mut u64,
    ) -> u32;

    // Appends a number to a key.
    fn append(
        &self,
        body: &mut [u8],
        heads: &mut [u64],
        mark: &mut u64,
        free: &mut [u64; 9],
        counts: &mut [u64; 49],
        key: u64,
        n: u64,
        to: &mut Appended,
    ) -> u32;

    // Reads a key into a list.
    fn read(
        &self,
        body: &mut [u8],
        heads: &mut [u64],
        mark: &mut u64,
        free: &mut [u64; 9],
        counts: &mut [u64; 49],
        key: u64,
        list: &mut [u64],
        counted: &mut Counted,
    ) -> u32;

    // Drops a key.
    fn drop_key(
        &self,
        body: &mut [u8],
        heads: &mut [u64],
        mark: &mut u64,
        free: &mut [u64; 9],
        counts: &mut [u64; 49],
        key: u64,
        length: &mut u64,
    ) -> u32;
}

// The desk of each key, which the book's calls are told.
#[derive(Clone, Copy)]
pub struct EachDesk<'a>(pub &'a [u8]);

// The desk of the call's key, which the core's calls are told.
#[derive(Clone, Copy)]
pub struct KeyDesk(pub u64);

impl Desks for EachDesk<'_> {
    fn load(
        &self,
        body: &mut [u8],
        heads: &mut [u64],
        mark: &mut u64,
        free: &mut [u64; 9],
        counts: &mut [u64; 49],
        key: u64,
        list: &[u64],
        pages: &mut u64,
    ) -> u32 {
        ouriscado::ouriscado_book_load(body, heads, mark, free, counts, self.0, key, list, pages)
    }

    fn load_tight(
        &self,
        body: &mut [u8],
        heads: &mut [u64],
        mark: &mut u64,
        free: &mut [u64; 9],
        counts: &mut [u64; 49],
        key: u64,
        list: &[u64],
        pages: &mut u64,
    ) -> u32 {
        ouriscado::ouriscado_book_load_tight(
            body, heads, mark, free, counts, self.0, key, list, pages,
        )
    }

    fn append(
        &self,
        body: &mut [u8],
        heads: &mut [u64],
        mark: &mut u64,
        free: &mut [u64; 9],
        counts: &mut [u64; 49],
        key: u64,
        n: u64,
        to: &mut Appended,
    ) -> u32 {
        ouriscado::ouriscado_book_append(
            body,
            heads,
            mark,
            free,
            counts,
            self.0,
            key,
            n,
            &mut to.kind,
            &mut to.class,
            &mut to.used,
            &mut to.place,
            &mut to.rewritten,
        )
    }

    fn read(
        &self,
        body: &mut [u8],
        heads: &mut [u64],
        mark: &mut u64,
        free: &mut [u64; 9],
        counts: &mut [u64; 49],
        key: u64,
        list: &mut [u64],
        counted: &mut Counted,
    ) -> u32 {
        ouriscado::ouriscado_book_read(
            body,
            heads,
            *mark,
            counts,
            self.0,
            key,
            list,
            &mut counted.length,
            &mut counted.pages,
            &mut counted.padded,
        )
    }

    fn drop_key(
        &self,
        body: &mut [u8],
        heads: &mut [u64],
        mark: &mut u64,
        free: &mut [u64; 9],
        counts: &mut [u64; 49],
        key: u64,
        length: &mut u64,
    ) -> u32 {
        ouriscado::ouriscado_book_drop(body, heads, mark, free, counts, self.0, key, length)
    }
}

impl Desks for KeyDesk {
    fn load(
        &self,
        body: &mut [u8],
        heads: &mut [u64],
        mark: &mut u64,
        free: &mut [u64; 9],
        counts: &mut [u64; 49],
        key: u64,
        list: &[u64],
        pages: &mut u64,
    ) -> u32 {
        ouriscado::ouriscado_core_load(body, heads, mark, free, counts, self.0, key, list, pages)
    }

    fn load_tight(
        &self,
        body: &mut [u8],
        heads: &mut [u64],
        mark: &mut u64,
        free: &mut [u64; 9],
        counts: &mut [u64; 49],
        key: u64,
        list: &[u64],
        pages: &mut u64,
    ) -> u32 {
        ouriscado::ouriscado_core_load_tight(
            body, heads, mark, free, counts, self.0, key, list, pages,
        )
    }

    fn append(
        &self,
        body: &mut [u8],
        heads: &mut [u64],
        mark: &mut u64,
        free: &mut [u64; 9],
        counts: &mut [u64; 49],
        key: u64,
        n: u64,
        to: &mut Appended,
    ) -> u32 {
        ouriscado::ouriscado_core_append(
            body,
            heads,
            mark,
            free,
            counts,
            self.0,
            key,
            n,
            &mut to.kind,
            &mut to.class,
            &mut to.used,
            &mut to.place,
            &mut to.rewritten,
        )
    }

    fn read(
        &self,
        body: &mut [u8],
        heads: &mut [u64],
        mark: &mut u64,
        free: &mut [u64; 9],
        counts: &mut [u64; 49],
        key: u64,
        list: &mut [u64],
        counted: &mut Counted,
    ) -> u32 {
        ouriscado::ouriscado_core_read(
            body,
            heads,
            *mark,
            key,
            list,
            &mut counted.length,
            &mut counted.pages,
            &mut counted.padded,
        )
    }

    fn drop_key(
        &self,
        body: &mut [u8],
        heads: &mut [u64],
        mark: &mut u64,
        free: &mut [u64; 9],
        counts: &mut [u64; 49],
        key: u64,
        length: &mut u64,
    ) -> u32 {
        ouriscado::ouriscado_core_drop(body, heads, mark, free, counts, self.0, key, length)
    }
}
