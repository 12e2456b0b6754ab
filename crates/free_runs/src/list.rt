// The free list of pages, as functions are handed it.
ghost use Rattle.std.specs.Prelude.{◌≤◌, length};

// A free list of pages in a body: the offset of its first page, 0 for none, and how many it has. Where it passes, each stands below the
// mark.
#[derive(Clone, Copy)]
pub struct FreedPages<'a> {
    pub body: &'a [u8],
    pub mark: u64,
    pub head: u64,
    pub count: u64,
    ghost within: { mark ≤ length body.now },
}
