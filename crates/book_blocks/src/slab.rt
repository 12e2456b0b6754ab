// Slabs in the blocks of a body: written from a list, and grown by one number.
ghost use Rattle.std.specs.Prelude.{◌≡◌, ◌+◌, ◌^◌, ◌≤◌, ◌<◌, length};
ghost use Rattle.buffer.specs.Bytes.{part, overwrite};
ghost use Rattle.compact.specs.Uleb128.{uleb_len};
ghost use Rattle.scripthash_stream.specs.Stream.{Rising, stream_len, max_offered};
ghost use Rattle.scripthash_slabs.specs.Slab.{slab_payload};
ghost use Rattle.book_blocks.specs.Blocks.{slab_with};
ghost use Rattle.book_blocks.specs.Steps.{NewSlabIn, SlabGrowsIn};

// Writes the payload of a list that rises and fits to the start of a block: the stream goes into the part after the count. Whoever calls
// has judged and measured the list, which isn't done again.
fn put_payload(block: &mut [u8], fks: &[u64])
    requires { (2 + stream_len fks.now ≤ length block.old) × (length fks.now ≤ max_offered) × Rising (2 ^ 63) 0 fks.now }
    ensures { block.new ≡ overwrite block.old 0 (slab_payload fks.now) }
{
    scripthash_stream::put_fks(&mut block[2..], fks);
    buffer::put_u16(block, 0, fks.len() as u16);
}

// Writes the payload of a list to the block of a size at an offset of a body. What stands behind the payload stays.
pub fn put_slab(body: &mut [u8], off: usize, size: usize, fks: &[u64])
    requires { NewSlabIn body.old off size fks.now }
    ensures { body.new ≡ overwrite body.old off (slab_payload fks.now) }
{
    let end = off + size;
    put_payload(&mut body[off..end], fks);
}

// Counts one number more in a slab's block that had some numbers in some bytes, and writes its form behind them.
fn grow_block(block: &mut [u8], used: u16, taken: usize, difference: u64)
    requires { (used < max_offered) × (2 + taken + uleb_len difference ≤ length block.old) }
    ensures { block.new ≡ slab_with block.old used taken difference }
{
    buffer::put_u16(block, 0, used + 1);
    scripthash_stream::put_form(block, 2 + taken, difference);
}

// Appends a number, by its difference, to the slab of a size at an offset of a body: only the count and the new form are written.
pub fn grow_slab(body: &mut [u8], off: usize, size: usize, used: u16, taken: usize, difference: u64)
    requires { SlabGrowsIn body.old off size used taken difference }
    ensures { body.new
        ≡ overwrite body.old off (slab_with (part body.old off size) used taken difference) }
{
    let end = off + size;
    grow_block(&mut body[off..end], used, taken, difference);
}
