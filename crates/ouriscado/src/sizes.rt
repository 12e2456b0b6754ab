// Sizes of blocks, and where lists start in a file.
ghost use Rattle.std.specs.Prelude.{◌≡◌};
ghost use Rattle.scripthash_layout.specs.Sizes.{slab_bytes, slab_slots, where_below};
ghost use Rattle.scripthash_layout.specs.Head.{payload_start};

// How many numbers a slab of a class has slots for, or 0 where that passes 32 bits.
#[unsafe(no_mangle)]
pub extern "C" fn ouriscado_slab_cap(class: u8) -> u32
    ensures { result ≡ where_below 32 (slab_slots class) }
{
    scripthash_layout::slab_cap(class)
}

// How many bytes a block of a class has, or 0 where that passes 64 bits.
#[unsafe(no_mangle)]
pub extern "C" fn ouriscado_slab_bytes(class: u8) -> u64
    ensures { result ≡ where_below 64 (slab_bytes class) }
{
    scripthash_layout::slab_bytes(class)
}

// The offset from which on lists stand in a file, whatever the length of the file's own header.
#[unsafe(no_mangle)]
pub extern "C" fn ouriscado_payload_start(file_header_len: usize) -> u64
    ensures { result ≡ payload_start }
{
    scripthash_layout::payload_start(file_header_len)
}
