// The store of one lent slice of blocks.
ghost use Rattle.std.specs.Prelude.{◌≡◌};
ghost use Rattle.store_slice.specs.Slice.{slice_stored, slice_out};
ghost use Rattle.store_slice.specs.Numbers.{blocks_of_numbers};

use crate::answers::put_count;

// Writes the store of the blocks, in groups as an index of this version has them, from the front of `out` on. A block is three numbers:
// start, end, first ordinal.
#[unsafe(no_mangle)]
pub extern "C" fn rosmarel_store(
    version: u64,
    blocks: &[[u64; 3]],
    out: &mut [u8],
    len: &mut u64,
) -> u32
    ensures { (result ≡ (slice_stored version (blocks_of_numbers blocks.now) out.old).no)
        × (out.new ≡ slice_out version (blocks_of_numbers blocks.now) out.old)
        × (len.new ≡ (slice_stored version (blocks_of_numbers blocks.now) out.old).len) }
{
    put_count(store_slice_numbers::serialize(version, blocks, out), len)
}
