// What reading a page's stream and appending to it tell.

// What reading a page's numbers tells: how many, and how many of them are padded.
#[derive(Clone, Copy, Debug, PartialEq, Eq)]
pub struct PageEntries {
    pub count: usize,
    pub padded: usize,
}

// What reading a page tells: how many numbers, the offset of the page behind it, 0 where it is the last, and how many of the numbers are
// padded.
#[derive(Clone, Copy, Debug, PartialEq, Eq)]
pub struct PageSlice {
    pub count: usize,
    pub next: u64,
    pub padded: usize,
}

// What appending a number tells: it was appended, or the page is full.
#[derive(Clone, Copy, Debug, PartialEq, Eq)]
pub enum TryAppend {
    Appended,
    Full,
}
