// The address store: `BlockAddrStoreWriter` and `BlockAddrStore` of src/index/v3.rs.
#![tactic(auto)]

pub mod grouping;

use group::BlockAddr;

// A block that an ordinal's search found: its place and its address.
#[derive(Clone, Copy, Default)]
pub struct Located {
    pub block_id: usize,
    pub addr: BlockAddr,
}
