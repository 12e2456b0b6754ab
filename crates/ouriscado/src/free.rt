// Free lists: a lent body, and the free heads of the classes 0 to 8, each the offset of the class's first freed block, or 0.
ghost use Rattle.std.specs.Prelude.{◌≡◌};
ghost use Rattle.error.specs.Refusal.{refusal_of, value_or};
ghost use Rattle.scripthash_free.specs.FreeList.{lists, push_free, pop_free, carve_gap, reloc_class, lists_after, heads_after};
ghost use Rattle.scripthash_free.specs.Answers.{pop_answer};
ghost use Rattle.std.proofs.Math.Option.{get_or};
ghost use Rattle.ouriscado.specs.OutClass.{has_class};

use crate::answers::{hand_out_some, number};
use error::Refusal;

// Hands out the offset of a popped block, 0 where there is none.
fn put_block(answer: Result<Option<u64>, Refusal>, off: &mut u64) -> u32
    ensures number { result ≡ refusal_of (pop_answer answer) }
    ensures off { off.new ≡ value_or (λ o. get_or o 0) (pop_answer answer) 0 }
{
    match answer {
        Ok(Some(at)) => {
            *off = at;
            0
        }
        Ok(None) => {
            *off = 0;
            0
        }
        Err(refusal) => {
            *off = 0;
            u32::from(refusal)
        }
    }
}

// The largest class of a slab whose blocks have at most so many bytes; the result says whether there is one.
#[unsafe(no_mangle)]
pub extern "C" fn ouriscado_largest_reloc_class_le(bytes: u64, class: &mut u8) -> bool
    ensures some { result ≡ has_class (reloc_class bytes) }
    ensures class { class.new ≡ get_or (reloc_class bytes) 0 }
{
    hand_out_some(scripthash_free::largest_reloc_class_le(bytes), 0, class)
}

// Pushes a block onto its class's free list: its first 8 bytes name the head so far, and it becomes the head. Refuses 35.
#[unsafe(no_mangle)]
pub extern "C" fn ouriscado_push_free_head(
    body: &mut [u8],
    heads: &mut [u64; 9],
    class: u8,
    off: u64,
) -> u32
    ensures number { result ≡ refusal_of (push_free class off (lists body.old heads.old)) }
    ensures lists { lists body.new heads.new
        ≡ lists_after (push_free class off (lists body.old heads.old))
        (lists body.old heads.old) }
{
    number(scripthash_free::push_lent(body, heads, class, off))
}

// Pops a block of a class that lies below the mark, and hands out its offset, 0 where there is none. Refuses 35.
#[unsafe(no_mangle)]
pub extern "C" fn ouriscado_pop_free_head(
    body: &[u8],
    heads: &mut [u64; 9],
    class: u8,
    mark: u64,
    off: &mut u64,
) -> u32
    ensures number { result ≡ refusal_of (pop_free class mark (lists body.now heads.old)) }
    ensures heads { heads.new
        ≡ heads_after (pop_free class mark (lists body.now heads.old)) heads.old }
    ensures off { off.new
        ≡ value_or (λ p. get_or p.block 0) (pop_free class mark (lists body.now heads.old)) 0 }
{
    let answer = scripthash_free::pop_lent(body, heads, class, mark);
    put_block(answer, off)
}

// Carves the gap between two offsets into blocks, from its low end, the largest class up to 7 first, and pushes them. Refuses 35.
#[unsafe(no_mangle)]
pub extern "C" fn ouriscado_carve_gap_into_freelist(
    body: &mut [u8],
    heads: &mut [u64; 9],
    from: u64,
    to: u64,
) -> u32
    ensures number { result ≡ refusal_of (carve_gap from to (lists body.old heads.old)) }
    ensures lists { lists body.new heads.new
        ≡ lists_after (carve_gap from to (lists body.old heads.old))
        (lists body.old heads.old) }
{
    number(scripthash_free::carve_lent(body, heads, from, to))
}
