// Numbers to and from their bytes, the lowest byte first. Where the bytes lie side by side in memory, two, four and eight
// of them are one load, and eight one store.
ghost use Rattle.std.specs.Prelude.{◌≡◌, [], ◌∷◌};
ghost use Rattle.buffer.specs.LittleEndian.{little_endian, bytes_of};

// The number that two bytes hold.
pub fn u16_of(b0: u8, b1: u8) -> u16
    ensures { result ≡ little_endian (b0 ∷ b1 ∷ []) }
{
    u16::from_le_bytes([b0, b1])
}

// The number that four bytes hold.
pub fn u32_of(b0: u8, b1: u8, b2: u8, b3: u8) -> u32
    ensures { result ≡ little_endian (b0 ∷ b1 ∷ b2 ∷ b3 ∷ []) }
{
    u32::from_le_bytes([b0, b1, b2, b3])
}

// The number that eight bytes hold.
pub fn u64_of(b0: u8, b1: u8, b2: u8, b3: u8, b4: u8, b5: u8, b6: u8, b7: u8) -> u64
    ensures { result ≡ little_endian (b0 ∷ b1 ∷ b2 ∷ b3 ∷ b4 ∷ b5 ∷ b6 ∷ b7 ∷ []) }
{
    u64::from_le_bytes([b0, b1, b2, b3, b4, b5, b6, b7])
}

// The eight bytes of a number.
pub fn u64_bytes(w: u64) -> [u8; 8]
    ensures { result ≡ bytes_of 8 w }
{
    w.to_le_bytes()
}
