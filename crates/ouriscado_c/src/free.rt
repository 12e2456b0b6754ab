// The functions of crate ouriscado in src/free.rt, for C: each export calls the one of its name, whose comment says what it does.
ghost use Rattle.std.specs.Prelude.{◌≡◌};
ghost use Rattle.error.specs.Refusal.{refusal_of, value_or};
ghost use Rattle.scripthash_free.specs.FreeList.{lists, push_free, pop_free, carve_gap, reloc_class, lists_after, heads_after};
ghost use Rattle.std.proofs.Math.Option.{get_or};
ghost use Rattle.ouriscado.specs.OutClass.{has_class};

#[unsafe(no_mangle)]
pub extern "C" fn ouriscado_largest_reloc_class_le(bytes: u64, class: &mut u8) -> bool
    ensures some { result ≡ has_class (reloc_class bytes) }
    ensures class { class.new ≡ get_or (reloc_class bytes) 0 }
{
    ouriscado::ouriscado_largest_reloc_class_le(bytes, class)
}

#[unsafe(no_mangle)]
pub extern "C" fn ouriscado_push_free_head(
    body: &mut [u8],
    heads: &mut [u64; 9],
    class: u8,
    off: u64,
) -> u32
    ensures number { result ≡ refusal_of (push_free class off (lists body.old heads.old)) }
    ensures lists { lists body.new heads.new
        ≡ lists_after (push_free class off (lists body.old heads.old))
        (lists body.old heads.old) }
{
    ouriscado::ouriscado_push_free_head(body, heads, class, off)
}

#[unsafe(no_mangle)]
pub extern "C" fn ouriscado_pop_free_head(
    body: &[u8],
    heads: &mut [u64; 9],
    class: u8,
    mark: u64,
    off: &mut u64,
) -> u32
    ensures number { result ≡ refusal_of (pop_free class mark (lists body.now heads.old)) }
    ensures heads { heads.new
        ≡ heads_after (pop_free class mark (lists body.now heads.old)) heads.old }
    ensures off { off.new
        ≡ value_or (λ p. get_or p.block 0) (pop_free class mark (lists body.now heads.old)) 0 }
{
    ouriscado::ouriscado_pop_free_head(body, heads, class, mark, off)
}

#[unsafe(no_mangle)]
pub extern "C" fn ouriscado_carve_gap_into_freelist(
    body: &mut [u8],
    heads: &mut [u64; 9],
    from: u64,
    to: u64,
) -> u32
    ensures number { result ≡ refusal_of (carve_gap from to (lists body.old heads.old)) }
    ensures lists { lists body.new heads.new
        ≡ lists_after (carve_gap from to (lists body.old heads.old))
        (lists body.old heads.old) }
{
    ouriscado::ouriscado_carve_gap_into_freelist(body, heads, from, to)
}
