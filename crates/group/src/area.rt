// Where a block's numbers stand in its record in an area of numbers, which is lent, since the library has no heap. A record may hold
// more behind them. Both functions go field by field, since the places have names: by From they would be those of an array, which have
// none.
ghost use Rattle.std.specs.Prelude.{◌≡◌, ◌+◌, ◌≤◌, length};
ghost use Rattle.group.specs.Blocks.{block_from, with_block};

use crate::BlockAddr;

// How far the end and the first ordinal stand behind the start.
pub const END: usize = 1;

pub const FIRST_ORDINAL: usize = 2;

// The block whose record begins at place `at`.
#[inline]
pub fn block_at(area: &[u64], at: usize) -> BlockAddr
    requires { at + 3 ≤ length area.now }
    ensures { result ≡ block_from area.now at }
{
    BlockAddr {
        start: area[at],
        end: area[at + END],
        first_ordinal: area[at + FIRST_ORDINAL],
    }
}

// Puts the block's numbers into the record that begins at place `at`.
#[inline]
pub fn put_block(block: BlockAddr, area: &mut [u64], at: usize)
    requires { at + 3 ≤ length area.old }
    ensures { area.new ≡ with_block area.old at block }
{
    area[at] = block.start;
    area[at + END] = block.end;
    area[at + FIRST_ORDINAL] = block.first_ordinal;
}
