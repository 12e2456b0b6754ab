// How many numbers a key has, by its head word: all of the key is judged as a read judges it, and nothing is written.
ghost use Rattle.std.specs.Prelude.{◌≡◌, ◌≤◌, length};
ghost use Rattle.error.specs.Refusal.{answered};
ghost use Rattle.scripthash_layout.specs.declared.head.ShHeadValue.TheVariants.{Slab, Extent};
ghost use Rattle.book_keys.specs.Keys.{soundly, content_at, content, body_ground};
ghost use Rattle.book_keys.specs.Steps.{length_of};
ghost use Rattle.book_keys.specs.Answers.{length_answer};

use crate::chain::{ChainEnd, chain_end};
use crate::slab::slab_end;
use error::Refusal;
use scripthash_layout::ShHeadValue;

// How many numbers a key in a slab has: as many as its head says, where its slab is sound.
fn slab_length(body: &[u8], mark: u64, class: u8, used: u16, off: u64) -> Result<u64, Refusal>
    requires { mark ≤ length body.now }
    ensures { length_answer result ≡ answered length_of (soundly (content_at (body_ground body.now mark) (Slab class used off))) }
{
    slab_end(body, mark, class, used, off)?;
    Ok(u64::from(used))
}

// How many numbers a key in pages has: those of all its pages, where its chain is sound.
fn chain_length(body: &[u8], mark: u64, last: u64) -> Result<u64, Refusal>
    requires { mark ≤ length body.now }
    ensures { length_answer result ≡ answered length_of (soundly (content_at (body_ground body.now mark) (Extent last))) }
{
    let ChainEnd { length, .. } = chain_end(body, mark, last, false)?;
    Ok(length)
}

// How many numbers a key has that stands at a place.
fn place_length(body: &[u8], mark: u64, place: ShHeadValue) -> Result<u64, Refusal>
    requires { mark ≤ length body.now }
    ensures { length_answer result ≡ answered length_of (soundly (content_at (body_ground body.now mark) place)) }
{
    match place {
        ShHeadValue::Empty => Ok(0),
        ShHeadValue::Inline { .. } => Ok(1),
        ShHeadValue::Slab { class, used, off } => slab_length(body, mark, class, used, off),
        ShHeadValue::Extent { last_page } => chain_length(body, mark, last_page),
    }
}

// How many numbers a head word's key has: 31 where it isn't sound.
pub fn key_length(body: &[u8], mark: u64, word: u64) -> Result<u64, Refusal>
    requires { mark ≤ length body.now }
    ensures { length_answer result ≡ answered length_of (content (body_ground body.now mark) word) }
{
    let Ok(place) = scripthash_layout::unpack8(word) else {
        return Err(Refusal::KeyUnsound);
    };
    place_length(body, mark, place)
}
