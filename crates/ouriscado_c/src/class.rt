// The functions of crate ouriscado in src/class.rt, for C: each export calls the one of its name, whose comment says what it does.
ghost use Rattle.std.specs.Prelude.{◌≡◌};
ghost use Rattle.scripthash_slabs.specs.Class.{class_by_bytes, class_by_count, class_with_slack};
ghost use Rattle.std.proofs.Math.Option.{get_or};
ghost use Rattle.ouriscado.specs.OutClass.{has_class};

#[unsafe(no_mangle)]
pub extern "C" fn ouriscado_slab_class_for_packed_len(len: usize, class: &mut u8) -> bool
    ensures some { result ≡ has_class (class_by_bytes len) }
    ensures class { class.new ≡ get_or (class_by_bytes len) 0 }
{
    ouriscado::ouriscado_slab_class_for_packed_len(len, class)
}

#[unsafe(no_mangle)]
pub extern "C" fn ouriscado_slab_class_for_n_fks(n: u32, class: &mut u8) -> bool
    ensures some { result ≡ has_class (class_by_count n) }
    ensures class { class.new ≡ get_or (class_by_count n) 0 }
{
    ouriscado::ouriscado_slab_class_for_n_fks(n, class)
}

#[unsafe(no_mangle)]
pub extern "C" fn ouriscado_slab_class_for_n_fks_with_slack(n: u32, class: &mut u8) -> bool
    ensures some { result ≡ has_class (class_with_slack n) }
    ensures class { class.new ≡ get_or (class_with_slack n) 0 }
{
    ouriscado::ouriscado_slab_class_for_n_fks_with_slack(n, class)
}
