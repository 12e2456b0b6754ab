// The first number of a stream, which is often long, read by itself.
ghost use Rattle.std.specs.Prelude.{◌<◌, IfSome};
ghost use Rattle.scripthash_words.specs.Words.{FirstNumber};

use scripthash_stream::BIT_63;

// A stream's first number and the bytes that its form takes.
#[derive(Clone, Copy)]
pub struct First {
    pub fk: u64,
    pub len: usize,
    ghost some: { 0 < len },
}

// The first number of a stream, where it can be read.
pub fn first_number(buf: &[u8]) -> Option<First>
    ensures { IfSome result (λ first. FirstNumber first.fk first.len buf.now) }
{
    let Ok(form) = compact::read_uleb128(buf) else {
        return None;
    };
    if form.value == 0 || BIT_63 <= form.value {
        return None;
    }
    Some(First {
        fk: form.value,
        len: form.len,
    })
}
