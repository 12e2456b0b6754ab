// Giving back a block: it goes onto the free list of its class.
ghost use Rattle.std.specs.Prelude.{ℕ, true, List, [], ◌∷◌, ◌≡◌, length};
ghost use Rattle.scripthash_free.specs.FreeList.{is_block};
ghost use Rattle.book_space.specs.Space.{space, release};

// Pushes a block that stands within the body onto the free list of its class, whatever the mark is.
pub fn release_block(body: &mut [u8], free: &mut [u64; 9], class: u8, off: u64)
    requires { is_block class off (length body.old) ≡ true }
    ensures { (mark : ℕ) → space body.new mark free.new
        ≡ release (record { class = class; off = off } ∷ []) (space body.old mark free.old) }
{
    let _ = scripthash_free::push_lent(body, free, class, off);
}
