// The head words of keys.
ghost use Rattle.std.specs.Prelude.{◌≡◌, ◌<◌, length, set};
ghost use Rattle.book.specs.Book.{head_word};

use scripthash_layout::ShHeadValue;

// The word that stores a place.
pub fn head_word(place: ShHeadValue) -> u64
    ensures { result ≡ head_word place }
{
    scripthash_layout::pack8(place).unwrap_or(0)
}

// Gives a key of the heads another place.
pub fn put_head(heads: &mut [u64], key: usize, place: ShHeadValue)
    requires { key < length heads.old }
    ensures { heads.new ≡ set heads.old key (head_word place) }
{
    heads[key] = head_word(place);
}
