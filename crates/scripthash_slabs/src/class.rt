// The class of slab that a list moves to, chosen by its count or by its bytes: one rule for two sizes.
ghost use Rattle.std.specs.Prelude.{◌≡◌, ◌*◌, ◌^◌, ◌≤◌, ◌<◌};
ghost use Rattle.scripthash_layout.specs.Sizes.{max_slab_class};
ghost use Rattle.scripthash_slabs.specs.Class.{class_for, class_by_bytes, class_by_count, class_with_slack};
ghost use Rattle.scripthash_slabs.specs.Answers.{chosen};

use scripthash_layout::{SH_MAX_SLAB_BYTES, SH_SLAB_BASE, SH_SLAB_BASE_BYTES};

// The first count that goes to pages.
pub const SH_MEGAKEY_MIN_FKS: u32 = 257;

// The smallest class that holds n, where class c holds unit * 2 ^ c: none below least or above most. From class 1 on, class c starts past
// unit * 2 ^ (c - 1), so the class is the length in bits of (n - 1) / unit.
fn smallest_class(n: usize, unit: usize, least: usize, most: usize) -> Option<u8>
    requires { (0 < unit) × (0 < least) × (most ≤ unit * 2 ^ max_slab_class) }
    ensures { chosen result ≡ class_for (record { size = λ c. unit * 2 ^ c; least = least; most = most }) n }
{
    if n < least || n > most {
        return None;
    }
    let zeros = usize::leading_zeros((n - 1) / unit);
    Some((64 - zeros) as u8)
}

// The smallest class whose bytes hold len bytes: none for 0 or more than the largest slab has.
pub fn slab_class_for_packed_len(len: usize) -> Option<u8>
    ensures { chosen result ≡ class_by_bytes len }
{
    smallest_class(len, SH_SLAB_BASE_BYTES as usize, 1, SH_MAX_SLAB_BYTES)
}

// The smallest class whose slots hold n numbers: none for 0, 1 or from 257 on.
pub fn slab_class_for_n_fks(n: u32) -> Option<u8>
    ensures { chosen result ≡ class_by_count n }
{
    let most = SH_MEGAKEY_MIN_FKS as usize - 1;
    smallest_class(n as usize, SH_SLAB_BASE as usize, 2, most)
}

// The count whose class is looked up with slack: one number more than n, and n where no slab takes more.
fn with_spare(n: u32) -> u32
    ensures { class_by_count result ≡ class_with_slack n }
{
    // No min: from 257 on n itself is looked up, and has no class.
    if n < SH_MEGAKEY_MIN_FKS - 1 { n + 1 } else { n }
}

// The class for one number more than n, so that a slot is spare, or where there is none the class for n.
pub fn slab_class_for_n_fks_with_slack(n: u32) -> Option<u8>
    ensures { chosen result ≡ class_with_slack n }
{
    slab_class_for_n_fks(with_spare(n))
}
