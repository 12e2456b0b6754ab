// Bytes in a row of a stream, which are looked at and weighed together.
ghost use Rattle.std.specs.Prelude.{◌≤◌, length};

// The bytes from one place up to another, with four bytes at least before them.
#[derive(Clone, Copy)]
pub struct Stretch<'a> {
    pub buf: &'a [u8],
    pub from: usize,
    pub to: usize,
    ghost behind: { 4 ≤ from },
    ghost onward: { from ≤ to },
    ghost within: { to ≤ length buf.now },
}
