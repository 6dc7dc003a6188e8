// One group of block addresses: `BlockAddrBlockMetadata` and `flush_block` of src/index/v3.rs.
#![tactic(auto)]

ghost use Rattle.std.specs.Prelude.{◌≡◌, [], ◌∷◌};
ghost use Rattle.group.specs.Blocks.{block_from};

pub mod area;
pub mod bits;
pub mod line;
pub mod meta;
pub mod rows;

// A block: where it starts and ends in the file, and its first term's ordinal.
#[repr(C)]
#[derive(Clone, Copy, Debug, Default, PartialEq, Eq)]
pub struct BlockAddr {
    pub start: u64,
    pub end: u64,
    pub first_ordinal: u64,
}

// A list that C or a program hands over has three numbers a block: its start, its end, its first ordinal.
impl From<[u64; 3]> for BlockAddr {
    ghost from_gives = { λ numbers block. block ≡ block_from numbers 0 };

    #[inline]
    fn from(numbers: [u64; 3]) -> BlockAddr {
        let [start, end, first_ordinal] = numbers;
        BlockAddr {
            start,
            end,
            first_ordinal,
        }
    }
}

impl From<BlockAddr> for [u64; 3] {
    ghost from_gives = { λ block numbers. numbers ≡ block.start ∷ block.end ∷ block.first_ordinal ∷ [] };

    #[inline]
    fn from(block: BlockAddr) -> [u64; 3] {
        [block.start, block.end, block.first_ordinal]
    }
}

// A group's record: where its bits stand, its first block's start and ordinal, and the slopes and widths of its fields.
#[derive(Clone, Copy, Debug, PartialEq, Eq)]
pub struct BlockAddrBlockMetadata {
    pub offset: u64,
    pub range_start: u64,
    pub first_ordinal: u64,
    pub range_start_slope: u32,
    pub first_ordinal_slope: u32,
    pub first_ordinal_nbits: u8,
    pub range_start_nbits: u8,
    pub block_len: u16,
}
