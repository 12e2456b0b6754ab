// A key, by its head word: its list read, how long it is, how many pages it has and how many of its numbers are padded.
ghost use Rattle.std.specs.Prelude.{◌≡◌, ℕ, ◌≤◌, length};
ghost use Rattle.error.specs.Refusal.{answered};
ghost use Rattle.scripthash_layout.specs.declared.head.ShHeadValue.TheVariants.{Inline};
ghost use Rattle.book_keys.specs.Keys.{soundly, content_at, content, Ground, body_ground};
ghost use Rattle.book_keys.specs.Steps.{counts_of, in_room, after_read, KeyRead};
ghost use Rattle.book_keys.specs.Answers.{counts_answer};

use crate::chain::read_chain;
use crate::slab::read_stored;
use error::Refusal;
use scripthash_layout::ShHeadValue;

// How long a key's list is, how many pages it has, and how many of its numbers are padded.
#[derive(Clone, Copy, Debug, PartialEq, Eq)]
pub struct KeyCounts {
    pub length: u64,
    pub pages: u64,
    pub padded: u64,
}

// Reads the one number of a key into the start of out.
fn read_inline(entry: u64, out: &mut [u64]) -> Result<KeyCounts, Refusal>
    ensures { (s : Ground) (used : ℕ)
        → KeyRead (counts_answer result) out.old out.new (soundly (content_at s (Inline entry used))) }
{
    if out.is_empty() {
        return Err(Refusal::ListTooShort);
    }
    out[0] = entry;
    Ok(KeyCounts {
        length: 1,
        pages: 0,
        padded: 0,
    })
}

// Reads the list of a key that stands at a place into the start of out.
fn read_place(
    body: &[u8],
    mark: u64,
    place: ShHeadValue,
    out: &mut [u64],
) -> Result<KeyCounts, Refusal>
    requires { mark ≤ length body.now }
    ensures { KeyRead (counts_answer result) out.old out.new
        (soundly (content_at (body_ground body.now mark) place)) }
{
    match place {
        ShHeadValue::Empty => Ok(KeyCounts {
            length: 0,
            pages: 0,
            padded: 0,
        }),
        ShHeadValue::Inline { entry, .. } => read_inline(entry, out),
        ShHeadValue::Slab { class, used, off } => read_stored(body, mark, class, used, off, out),
        ShHeadValue::Extent { last_page } => read_chain(body, mark, last_page, out),
    }
}

// Reads the list of a head word's key into the start of out, and tells how long it is, how many pages it has and how many of its
// numbers are padded: all of the key is judged (31) before the lent list (34), which is left where the read is refused.
pub fn read_key(body: &[u8], mark: u64, word: u64, out: &mut [u64]) -> Result<KeyCounts, Refusal>
    requires { mark ≤ length body.now }
    ensures answer { counts_answer result
        ≡ answered counts_of (in_room (length out.old) (content (body_ground body.now mark) word)) }
    ensures list { out.new
        ≡ after_read out.old (in_room (length out.old) (content (body_ground body.now mark) word)) }
{
    let Ok(place) = scripthash_layout::unpack8(word) else {
        return Err(Refusal::KeyUnsound);
    };
    read_place(body, mark, place, out)
}
