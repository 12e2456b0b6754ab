// Where forms start: at each place four bytes are kept as a word, and the next place keeps its own over them where no form starts.
// The bytes and a place in them stay two parameters: each step goes on from another place, so that a struct of both would be made anew.
ghost use Rattle.std.specs.Prelude.{◌≡◌, ℕ, ◌+◌, ◌-◌, ◌≤◌, ◌<◌, length, get_or, drop, IfSome};
ghost use Rattle.scripthash_words.specs.Words.{end_one, four_bytes, words_at, Found};

// The place up to which starts were looked for, and how many there are.
#[derive(Clone, Copy)]
pub struct Starts {
    pub at: usize,
    pub count: usize,
}

// How many forms a byte ends.
fn ends_form(b: u8) -> usize
    ensures { (result ≡ end_one b) × (result ≤ 1) }
{
    usize::from(b < 128)
}

// Keeps the word at a place at index s, and tells the index for the next place: the same one where no form starts here.
fn keep_word(buf: &[u8], i: usize, word: u32, s: usize, words: &mut [u32]) -> usize
    requires { (0 < i) × (i < length buf.now) × (word ≡ four_bytes (drop i buf.now)) × (s < length words.old) }
    ensures { (result ≤ s + 1) × (length words.new ≡ length words.old)
        × ((from : ℕ) → Found buf.now from i s words.old
        → Found buf.now from (i + 1) result words.new) }
{
    words[s] = word;
    s + ends_form(buf[i - 1])
}

// The word at a place with four bytes from there on.
fn word_at(buf: &[u8], i: usize) -> u32
    requires { i + 4 ≤ length buf.now }
    ensures { result ≡ four_bytes (drop i buf.now) }
{
    buffer::get_u32(buf, i)
}

// The words at eight places.
fn keep_eight(buf: &[u8], i: usize, s: usize, words: &mut [u32]) -> usize
    requires { (0 < i) × (i + 11 ≤ length buf.now) × (s + 8 ≤ length words.old) }
    ensures { (result ≤ s + 8) × (length words.new ≡ length words.old)
        × ((from : ℕ) → Found buf.now from i s words.old
        → Found buf.now from (i + 8) result words.new) }
{
    let mut next = s;
    for j in 0..8 {
        next = keep_word(buf, i + j, word_at(buf, i + j), next, words);
    }
    next
}

// Finds starts eight places at a time, until there are as many as wanted, or fewer than 12 bytes are left.
fn find_by_eight(buf: &[u8], from: usize, want: usize, words: &mut [u32]) -> Starts
    requires { (0 < from) × (from ≤ length buf.now) × (want + 8 ≤ length words.old) }
    ensures { (from ≤ result.at) × (result.at ≤ length buf.now) × (result.count ≤ want + 8)
        × (length words.new ≡ length words.old)
        × Found buf.now from result.at result.count words.new }
{
    let mut i = from;
    let mut s: usize = 0;
    // Each turn goes on by eight places and finds as many starts as stand there, so that no range counts the turns.
    while s < want {
        if buf.len() - i < 12 {
            return Starts { at: i, count: s };
        }
        s = keep_eight(buf, i, s, words);
        i += 8;
    }
    Starts { at: i, count: s }
}

// The byte at a place, or 0 where there is none.
fn byte_or_none(buf: &[u8], i: usize) -> u8
    ensures { result ≡ get_or buf.now i 0 }
{
    buf.get(i).copied().unwrap_or(0)
}

// The word at a place near the end.
fn word_at_end(buf: &[u8], i: usize) -> u32
    requires { i < length buf.now }
    ensures { result ≡ four_bytes (drop i buf.now) }
{
    buffer::u32_of(
        buf[i],
        byte_or_none(buf, i + 1),
        byte_or_none(buf, i + 2),
        byte_or_none(buf, i + 3),
    )
}

// Finds starts place by place behind those that were found, until there are as many as wanted, or the bytes end.
fn find_singly(buf: &[u8], from: usize, had: usize, want: usize, words: &mut [u32]) -> Starts
    requires { (0 < from) × (from ≤ length buf.now) × (had ≤ length words.old) × (want ≤ length words.old) }
    ensures { (from ≤ result.at) × (result.at ≤ length buf.now) × (result.count ≤ length words.old)
        × (length words.new ≡ length words.old)
        × ((o : ℕ) → Found buf.now o from had words.old
        → Found buf.now o result.at result.count words.new) }
{
    let mut s = had;
    for i in from..buf.len() {
        if want <= s {
            return Starts { at: i, count: s };
        }
        s = keep_word(buf, i, word_at_end(buf, i), s, words);
    }
    Starts {
        at: buf.len(),
        count: s,
    }
}

// Finds starts from a place on: as many as wanted and up to seven more, or all that there are.
pub fn find_starts(buf: &[u8], from: usize, want: usize, words: &mut [u32]) -> Starts
    requires { (0 < from) × (from ≤ length buf.now) × (want + 8 ≤ length words.old) }
    ensures { (from ≤ result.at) × (result.at ≤ length buf.now) × (result.count ≤ length words.old)
        × (length words.new ≡ length words.old)
        × Found buf.now from result.at result.count words.new }
{
    let got = find_by_eight(buf, from, want, words);
    find_singly(buf, got.at, got.count, want, words)
}

// The place with so many starts between it and a later one, which counts itself, where a form ends before it.
pub fn place_before(buf: &[u8], from: usize, at: usize, more: usize) -> Option<usize>
    requires { (0 < from) × (from ≤ at) × (at ≤ length buf.now) }
    ensures { IfSome result (λ place. (from ≤ place) × (place ≤ at) × (get_or buf.now (place - 1) 0 < 128)
        × (length (words_at buf.now at) + more ≡ length (words_at buf.now place))) }
{
    let mut i = at;
    let mut left = more;
    // It goes back until enough starts are passed, and tells where: a range would have a second way out, and lose the place.
    while 0 < left {
        if i == from {
            return None;
        }
        i -= 1;
        left -= ends_form(buf[i - 1]);
    }
    (buf[i - 1] < 128).then_some(i)
}
