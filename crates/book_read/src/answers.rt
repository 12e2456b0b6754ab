// What a read tells.

// What a read tells: how many numbers the lent list has at its start now, the pages walked, and how many of the numbers are padded.
#[derive(Clone, Copy, Debug, PartialEq, Eq)]
pub struct BookRead {
    pub length: u64,
    pub pages: u64,
    pub padded: u64,
}
