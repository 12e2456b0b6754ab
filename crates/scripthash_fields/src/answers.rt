// What the calls on a page's fields tell.
ghost use Rattle.std.specs.Prelude.{◌≡◌, cond};

// What a page's link says: LAST or not, and the offset of the page that it names.
#[derive(Clone, Copy, Debug, PartialEq, Eq)]
pub struct PageLink {
    pub last: bool,
    pub off: u64,
}

impl PageLink {
    // The offset of the page behind, 0 where the page is LAST.
    pub fn next(self) -> u64
        ensures { result ≡ cond self.last 0 self.off }
    {
        if self.last { 0 } else { self.off }
    }
}

// The extent that a page names: where it begins, and how many pages it has.
#[derive(Clone, Copy, Debug, PartialEq, Eq)]
pub struct PageExtent {
    pub base: u64,
    pub n: u32,
}
