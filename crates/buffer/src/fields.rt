// Numbers at an offset of a buffer, the lowest byte first: each is one load or one store, that of five bytes two.
// Each width keeps a name of its own, which other crates call: a number of two or four bytes has a type of its own.
ghost use Rattle.std.specs.Prelude.{◌≡◌, ◌+◌, ◌^◌, ◌≤◌, ◌<◌, length};
ghost use Rattle.buffer.specs.Bytes.{part, overwrite};
ghost use Rattle.buffer.specs.LittleEndian.{little_endian, bytes_of};

// The number in the N bytes from an offset on.
fn number_at<const N: usize>(b: &[u8], at: usize) -> u64
    requires few { N ≤ 8 }
    requires within { at + N ≤ length b.now }
    ensures value { result ≡ little_endian (part b.now at N) }
    ensures below { result < 256 ^ N }
{
    let mut bytes = [0u8; 8];
    bytes[..N].copy_from_slice(&b[at..at + N]);
    u64::from_le_bytes(bytes)
}

// Writes a number's N lowest bytes over those from an offset on.
fn put_number<const N: usize>(b: &mut [u8], at: usize, n: u64)
    requires few { N ≤ 8 }
    requires within { at + N ≤ length b.old }
    ensures { b.new ≡ overwrite b.old at (bytes_of N n) }
{
    b[at..at + N].copy_from_slice(&n.to_le_bytes()[..N]);
}

// The number in the two bytes from an offset on.
pub fn get_u16(b: &[u8], at: usize) -> u16
    requires { at + 2 ≤ length b.now }
    ensures { result ≡ little_endian (part b.now at 2) }
{
    number_at::<2>(b, at) as u16
}

// The number in the four bytes from an offset on.
pub fn get_u32(b: &[u8], at: usize) -> u32
    requires { at + 4 ≤ length b.now }
    ensures { result ≡ little_endian (part b.now at 4) }
{
    number_at::<4>(b, at) as u32
}

// The number in the five bytes from an offset on.
pub fn get_u40(b: &[u8], at: usize) -> u64
    requires { at + 5 ≤ length b.now }
    ensures { result ≡ little_endian (part b.now at 5) }
{
    number_at::<5>(b, at)
}

// The number in the eight bytes from an offset on.
pub fn get_u64(b: &[u8], at: usize) -> u64
    requires { at + 8 ≤ length b.now }
    ensures { result ≡ little_endian (part b.now at 8) }
{
    number_at::<8>(b, at)
}

// Writes a number over the two bytes from an offset on.
pub fn put_u16(b: &mut [u8], at: usize, n: u16)
    requires { at + 2 ≤ length b.old }
    ensures { b.new ≡ overwrite b.old at (bytes_of 2 n) }
{
    put_number::<2>(b, at, u64::from(n));
}

// Writes a number over the four bytes from an offset on.
pub fn put_u32(b: &mut [u8], at: usize, n: u32)
    requires { at + 4 ≤ length b.old }
    ensures { b.new ≡ overwrite b.old at (bytes_of 4 n) }
{
    put_number::<4>(b, at, u64::from(n));
}

// Writes a number's 40 low bits over the five bytes from an offset on.
pub fn put_u40(b: &mut [u8], at: usize, n: u64)
    requires { at + 5 ≤ length b.old }
    ensures { b.new ≡ overwrite b.old at (bytes_of 5 n) }
{
    put_number::<5>(b, at, n);
}

// Writes a number over the eight bytes from an offset on.
pub fn put_u64(b: &mut [u8], at: usize, n: u64)
    requires { at + 8 ≤ length b.old }
    ensures { b.new ≡ overwrite b.old at (bytes_of 8 n) }
{
    put_number::<8>(b, at, n);
}
