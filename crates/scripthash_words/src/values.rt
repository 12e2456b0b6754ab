// What words hold: the value of each one's form, and the sums of the values.
ghost use Rattle.std.specs.Prelude.{◌≡◌, true, ℕ, ◌+◌, ◌^◌, ◌≤◌, ◌<◌, length, map};
ghost use Rattle.buffer.specs.Bytes.{overwrite};
ghost use Rattle.scripthash_stream.specs.Stream.{last_from};
ghost use Rattle.scripthash_words.specs.Words.{has_end, value_in, values_in, AllEnded, AllAbove, running_from, sum_of};

// The value of the form in a word. The tests become selects, so that several words are done at a time.
fn value_of(x: u32) -> u32
    ensures { result ≡ value_in x }
{
    let one = x % 128;
    if x % 256 < 128 {
        return one;
    }
    let two = one + x / 256 % 128 * 128;
    if x / 256 % 256 < 128 {
        return two;
    }
    let three = two + x / 65536 % 128 * 16384;
    if x / 65536 % 256 < 128 {
        return three;
    }
    three + x / 16777216 % 128 * 2097152
}

// 1 where the form in a word goes on behind it, else 0.
fn unended(x: u32) -> u32
    ensures { (result ≡ 0 → has_end x ≡ true) × (result ≤ 1) }
{
    u32::from(x & 0x8080_8080 == 0x8080_8080)
}

// 1 where a difference is 0, else 0.
fn zero_value(v: u32) -> u32
    ensures { (result ≡ 0 → 0 < v) × (result ≤ 1) }
{
    u32::from(v == 0)
}

// Puts the value of its form in place of each word; tells 0 where each form ends in its word and no value is 0.
pub fn take_values(words: &mut [u32]) -> u32
    requires { length words.old ≤ 65536 }
    ensures { (length words.new ≡ length words.old)
        × (result ≡ 0 → AllEnded words.old × (words.new ≡ values_in words.old)
        × AllAbove words.new) }
{
    let mut bad: u32 = 0;
    for word in words.iter_mut() {
        let x = *word;
        let v = value_of(x);
        bad += unended(x) + zero_value(v);
        *word = v;
    }
    bad
}

// A difference between two numbers of a stream, as a word or a byte holds it.
pub trait Difference {
    // The difference as a number.
    ghost value: { Self → ℕ };

    // The difference as a number of 64 bits.
    fn widened(&self) -> u64
        ensures { result ≡ value self.now };
}

impl Difference for u8 {
    ghost value = { λ b. b };

    fn widened(&self) -> u64 {
        u64::from(*self)
    }
}

impl Difference for u32 {
    ghost value = { λ v. v };

    fn widened(&self) -> u64 {
        u64::from(*self)
    }
}

// Writes the numbers behind prev that differences lead to to the start of out, and tells the last.
pub fn sum_up<T: Difference>(differences: &[T], prev: u64, out: &mut [u64]) -> u64
    requires room { length differences.now ≤ length out.old }
    requires low { prev + sum_of (map T.value differences.now) < 2 ^ 64 }
    ensures last { result ≡ last_from prev (running_from prev (map T.value differences.now)) }
    ensures written { out.new ≡ overwrite out.old 0 (running_from prev (map T.value differences.now)) }
{
    let mut sum = prev;
    for (k, difference) in differences.iter().enumerate() {
        sum += difference.widened();
        out[k] = sum;
    }
    sum
}
