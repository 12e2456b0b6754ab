// The class of slab that a list moves to. The result says whether there is one; where there is none, class is 0.
ghost use Rattle.std.specs.Prelude.{◌≡◌};
ghost use Rattle.scripthash_slabs.specs.Class.{class_by_bytes, class_by_count, class_with_slack};
ghost use Rattle.std.proofs.Math.Option.{get_or};
ghost use Rattle.ouriscado.specs.OutClass.{has_class};

use crate::answers::hand_out_some;

// The smallest class whose bytes hold len bytes: none for 0 or above 2,048.
#[unsafe(no_mangle)]
pub extern "C" fn ouriscado_slab_class_for_packed_len(len: usize, class: &mut u8) -> bool
    ensures some { result ≡ has_class (class_by_bytes len) }
    ensures class { class.new ≡ get_or (class_by_bytes len) 0 }
{
    hand_out_some(scripthash_slabs::slab_class_for_packed_len(len), 0, class)
}

// The smallest class whose slots hold n numbers: none for 0, 1 or from 257 on.
#[unsafe(no_mangle)]
pub extern "C" fn ouriscado_slab_class_for_n_fks(n: u32, class: &mut u8) -> bool
    ensures some { result ≡ has_class (class_by_count n) }
    ensures class { class.new ≡ get_or (class_by_count n) 0 }
{
    hand_out_some(scripthash_slabs::slab_class_for_n_fks(n), 0, class)
}

// The class for one number more than n, or where there is none the class for n.
#[unsafe(no_mangle)]
pub extern "C" fn ouriscado_slab_class_for_n_fks_with_slack(n: u32, class: &mut u8) -> bool
    ensures some { result ≡ has_class (class_with_slack n) }
    ensures class { class.new ≡ get_or (class_with_slack n) 0 }
{
    hand_out_some(
        scripthash_slabs::slab_class_for_n_fks_with_slack(n),
        0,
        class,
    )
}
