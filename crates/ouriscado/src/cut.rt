// Cutting a list into the parts that pages hold.
ghost use Rattle.std.specs.Prelude.{◌≡◌, length};
ghost use Rattle.error.specs.Refusal.{refusal_of, value_or};
ghost use Rattle.scripthash_cutting.specs.Cutting.{chunk_ranges, after_chunk_ranges, split_last, after_split_last};

use crate::answers::hand_out;

// Cuts fks into parts, tells how many, and puts their ranges, each from an index up to another, to the start of out. Refuses 34.
#[unsafe(no_mangle)]
pub extern "C" fn ouriscado_sh_page_chunk_ranges(
    fks: &[u64],
    out: &mut [[usize; 2]],
    parts: &mut usize,
) -> u32
    ensures number { result ≡ refusal_of (chunk_ranges (length out.old) fks.now) }
    ensures list { out.new ≡ after_chunk_ranges out.old fks.now }
    ensures parts { parts.new ≡ value_or (λ x. x) (chunk_ranges (length out.old) fks.now) 0 }
{
    hand_out(scripthash_cutting::sh_page_chunk_ranges(fks, out), 0, parts)
}

// Cuts the last of the first count ranges of chunks again, into parts that fit a last page, and tells how many ranges there are then. One
// that is empty, or leaves fks, stays. Refuses 34.
#[unsafe(no_mangle)]
pub extern "C" fn ouriscado_split_last_chunk_for_extent(
    fks: &[u64],
    chunks: &mut [[usize; 2]],
    count: usize,
    parts: &mut usize,
) -> u32
    ensures number { result ≡ refusal_of (split_last fks.now chunks.old count) }
    ensures list { chunks.new ≡ after_split_last fks.now chunks.old count }
    ensures parts { parts.new ≡ value_or (λ x. x) (split_last fks.now chunks.old count) 0 }
{
    hand_out(
        scripthash_cutting::split_last_chunk_for_extent(fks, chunks, count),
        0,
        parts,
    )
}
