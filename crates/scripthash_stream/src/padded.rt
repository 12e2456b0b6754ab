// How many numbers of a stream are padded: the bytes 0 among those that it takes, counted in plain loops, of which the compiler makes loops
// over many bytes at a time.
ghost use Rattle.std.specs.Prelude.{◌≡◌, ◌≤◌, length, take};
ghost use Rattle.compact.specs.Uleb128.{zeros};
ghost use Rattle.error.specs.Refusal.{accepted};
ghost use Rattle.scripthash_stream.specs.Stream.{Scan, scan, padded_in};

// How many of at most 128 bytes are 0.
fn zeros_in(part: &[u8]) -> u8
    requires { length part.now ≤ 128 }
    ensures { (result ≡ zeros part.now) × (result ≤ length part.now) }
{
    let mut count: u8 = 0;
    for &b in part {
        count += u8::from(b == 0);
    }
    count
}

// How many of the first n bytes are 0: 128 at a time, so that a count has one byte and many fit a register.
pub fn count_zeros(buf: &[u8], n: usize) -> usize
    requires { n ≤ length buf.now }
    ensures { result ≡ zeros (take n buf.now) }
{
    let mut count: usize = 0;
    let mut at: usize = 0;
    // Parts by `chunks(128)` were tried, and took 1.2 of the time on 4,095 bytes: there each part may be shorter than 128.
    while 128 < n - at {
        count += usize::from(zeros_in(&buf[at..at + 128]));
        at += 128;
    }
    count + usize::from(zeros_in(&buf[at..n]))
}

// How many of the n numbers of a stream that takes so many bytes are padded: none where each takes one.
#[tactic(auto, using(crate::proofs::LawsPadded::padded_bytes, crate::proofs::LawsPadded::padded_counted))]
pub fn count_padded(buf: &[u8], n: usize, taken: usize) -> usize
    requires { taken ≤ length buf.now }
    ensures { (s : Scan) → scan n buf.now ≡ accepted s → s.taken ≡ taken → result ≡ padded_in n buf.now }
{
    if taken == n {
        return 0;
    }
    count_zeros(buf, taken)
}
