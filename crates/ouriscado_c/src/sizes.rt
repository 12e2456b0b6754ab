// The functions of crate ouriscado in src/sizes.rt, for C: each export calls the one of its name, whose comment says what it does.
ghost use Rattle.std.specs.Prelude.{◌≡◌};
ghost use Rattle.scripthash_layout.specs.Sizes.{slab_bytes, slab_slots, where_below};
ghost use Rattle.scripthash_layout.specs.Head.{payload_start};

#[unsafe(no_mangle)]
pub extern "C" fn ouriscado_slab_cap(class: u8) -> u32
    ensures { result ≡ where_below 32 (slab_slots class) }
{
    ouriscado::ouriscado_slab_cap(class)
}

#[unsafe(no_mangle)]
pub extern "C" fn ouriscado_slab_bytes(class: u8) -> u64
    ensures { result ≡ where_below 64 (slab_bytes class) }
{
    ouriscado::ouriscado_slab_bytes(class)
}

#[unsafe(no_mangle)]
pub extern "C" fn ouriscado_payload_start(file_header_len: usize) -> u64
    ensures { result ≡ payload_start }
{
    ouriscado::ouriscado_payload_start(file_header_len)
}
