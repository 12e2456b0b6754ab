// Forms of a stream read one by one and summed up, with short paths for forms of up to six bytes.
ghost use Rattle.std.specs.Prelude.{◌≡◌, ◌+◌, ◌-◌, ◌*◌, ◌^◌, ◌≤◌, ◌<◌, length, set, IfSome};
ghost use Rattle.scripthash_forms.specs.Quick.{ThreeGoOn, QuickForm, QuickSum};

use scripthash_stream::BIT_63;

// What was read of a form: its value and how many bytes it takes.
#[derive(Clone, Copy)]
struct Form {
    value: u64,
    len: usize,
}

// Where a stream that was scanned quickly ends: the bytes that it takes, 0 where it wasn't, and its last number.
// It has no Option: what is promised to other crates, QuickSum, tells it by 0 bytes.
#[derive(Clone, Copy)]
pub struct StreamEnd {
    pub taken: usize,
    pub last: u64,
}

// The form at the start of some bytes, of any length.
fn any_form(bytes: &[u8]) -> Option<Form>
    ensures { IfSome result (λ form. QuickForm form.value form.len bytes.now) }
{
    let Ok(form) = compact::read_uleb128(bytes) else {
        return None;
    };
    Some(Form {
        value: form.value,
        len: form.len,
    })
}

// The value of a form's bytes up to b, which goes on: that of the bytes before it, and its piece, which has a weight.
fn with_more(value: u64, b: u8, weight: u64) -> u64
    requires { (value < weight) × (weight ≤ 2 ^ 35) × (128 ≤ b) }
    ensures { (result ≡ value + (b - 128) * weight) × (result < 128 * weight) }
{
    value + (u64::from(b) - 128) * weight
}

// The form of so many bytes whose last is b: the value of the bytes before it, and its piece, which has a weight.
fn with_last(value: u64, b: u8, weight: u64, len: usize) -> Form
    requires { (value < weight) × (weight ≤ 2 ^ 35) × (b < 128) }
    ensures { (result.value ≡ value + b * weight) × (result.len ≡ len) }
{
    Form {
        value: value + u64::from(b) * weight,
        len,
    }
}

// The form at the start of some bytes, which may be fewer than three: told where it ends with the second.
fn last_form(bytes: &[u8]) -> Option<Form>
    ensures { IfSome result (λ form. QuickForm form.value form.len bytes.now) }
{
    if bytes.is_empty() {
        return None;
    }
    let b0 = bytes[0];
    if b0 < 128 {
        return Some(with_last(0, b0, 1, 1));
    }
    if bytes.len() < 2 {
        return None;
    }
    let v0 = with_more(0, b0, 1);
    let b1 = bytes[1];
    if b1 < 128 {
        return Some(with_last(v0, b1, 128, 2));
    }
    None
}

// The form at the start of some bytes, of which the first three go on and carry a value, with short paths for four to six bytes, as first
// numbers have.
fn long_form(bytes: &[u8], v2: u64) -> Option<Form>
    requires { ThreeGoOn bytes.now 0 v2 }
    ensures { IfSome result (λ form. QuickForm form.value form.len bytes.now) }
{
    if bytes.len() < 6 {
        return any_form(bytes);
    }
    let b3 = bytes[3];
    if b3 < 128 {
        return Some(with_last(v2, b3, 2097152, 4));
    }
    let v3 = with_more(v2, b3, 2097152);
    let b4 = bytes[4];
    if b4 < 128 {
        return Some(with_last(v3, b4, 268435456, 5));
    }
    let v4 = with_more(v3, b4, 268435456);
    let b5 = bytes[5];
    if b5 < 128 {
        return Some(with_last(v4, b5, 34359738368, 6));
    }
    any_form(bytes)
}

// The form at the start of some bytes, with short paths for up to six bytes: each byte has 128 times the weight of the one before.
fn short_form(bytes: &[u8]) -> Option<Form>
    ensures { IfSome result (λ form. QuickForm form.value form.len bytes.now) }
{
    if bytes.len() < 3 {
        return last_form(bytes);
    }
    let b0 = bytes[0];
    if b0 < 128 {
        return Some(with_last(0, b0, 1, 1));
    }
    let v0 = with_more(0, b0, 1);
    let b1 = bytes[1];
    if b1 < 128 {
        return Some(with_last(v0, b1, 128, 2));
    }
    let v1 = with_more(v0, b1, 128);
    let b2 = bytes[2];
    if b2 < 128 {
        return Some(with_last(v1, b2, 16384, 3));
    }
    let v2 = with_more(v1, b2, 16384);
    long_form(bytes, v2)
}

// Keeps a number at index k of a list, where the list has that index.
fn keep(space: &mut [u64], k: usize, fk: u64)
    ensures { space.new ≡ set space.old k fk }
{
    if k < space.len() {
        space[k] = fk;
    }
}

// Sums up n forms from a place on, behind a number, and keeps the numbers in space as far as that has room: tells the place behind them and
// the last number, or place 0 where a form is 0 or can't be read, or a number would have bit 63. It alone calls short_form, which so
// becomes part of the loop.
pub fn sum_forms(buf: &[u8], from: usize, prev: u64, n: usize, space: &mut [u64]) -> StreamEnd
    requires { (from ≤ length buf.now) × (prev < 2 ^ 63) }
    ensures { QuickSum result.taken result.last from prev n buf.now space.new }
{
    let mut sum = prev;
    let mut i = from;
    for k in 0..n {
        let Some(form) = short_form(&buf[i..]) else {
            return StreamEnd { taken: 0, last: 0 };
        };
        if form.value == 0 || BIT_63 - sum <= form.value {
            return StreamEnd { taken: 0, last: 0 };
        }
        sum += form.value;
        keep(space, k, sum);
        i += form.len;
    }
    StreamEnd {
        taken: i,
        last: sum,
    }
}
