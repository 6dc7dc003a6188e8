// The lookups in an opened index, with groups of its version's length: the calls that the C interface makes, which hands over no group
// length, and record and bytes apart. `separator` is for programs, and `opened_bad` tells what the others refuse. By id and by key the
// length is a constant, by an `if` on the version, since one that is chosen is multiplied and divided by in more steps. By ordinal it
// isn't: two copies of the search would be slower than one.
#![tactic(auto)]

pub mod grouped;

ghost use Rattle.std.specs.Prelude.{◌≡◌};
ghost use Rattle.index.specs.Answers.{by_id_no, by_id_addr, id_no, id_of, located_no, located_id, located_addr, part_at};
ghost use Rattle.index.specs.Lookups.{opened_bad, GetBlock, LocateWithOrd, LocateWithKey, GetBlockWithKey, place_def};

use group::BlockAddr;
pub use grouped::OpenedIndex;
use index::SSTableIndexV3;
use layout::refusals::Refusal;
use layout::versions::SSTABLE_INDEX_V3;
use layout::{STORE_BLOCK_LEN, STORE_BLOCK_LEN_V4};
use store::Located;

// Row 20 for the record: whether it can't be one of `len` bytes.
pub fn opened_bad(opened: SSTableIndexV3, len: usize) -> bool
    ensures { result ≡ opened_bad opened len }
{
    grouped::opened_bad(opened, len, opened.group_len())
}

// The address of block `block_id`.
#[tactic(auto, unfolding(layout::specs::Versions::group_len_of))]
pub fn get_block(opened: SSTableIndexV3, data: &[u8], block_id: u64) -> Result<BlockAddr, Refusal>
    ensures { GetBlock «data».now opened block_id (by_id_no result) (by_id_addr result) }
{
    if opened.version == SSTABLE_INDEX_V3 {
        grouped::get_block(opened, data, STORE_BLOCK_LEN, block_id)
    } else {
        grouped::get_block(opened, data, STORE_BLOCK_LEN_V4, block_id)
    }
}

// The block that holds the ordinal, if that is below the number of terms.
pub fn locate_with_ord(opened: SSTableIndexV3, data: &[u8], ord: u64) -> Result<Located, Refusal>
    ensures { LocateWithOrd «data».now opened ord (located_no result) (located_id result) (located_addr result) }
{
    grouped::locate_with_ord(opened, data, opened.group_len(), ord)
}

// The block that may hold the key.
#[tactic(auto, unfolding(layout::specs::Versions::group_len_of))]
pub fn locate_with_key(opened: SSTableIndexV3, data: &[u8], key: &[u8]) -> Result<usize, Refusal>
    ensures { LocateWithKey «data».now opened key.now (id_no result) (id_of result) }
{
    if opened.version == SSTABLE_INDEX_V3 {
        grouped::locate_with_key(opened, data, STORE_BLOCK_LEN, key)
    } else {
        grouped::locate_with_key(opened, data, STORE_BLOCK_LEN_V4, key)
    }
}

// The block that may hold the key, with its address.
#[tactic(auto, unfolding(layout::specs::Versions::group_len_of))]
pub fn get_block_with_key(
    opened: SSTableIndexV3,
    data: &[u8],
    key: &[u8],
) -> Result<Located, Refusal>
    ensures { GetBlockWithKey «data».now opened key.now (located_no result) (located_id result) (located_addr result) }
{
    if opened.version == SSTABLE_INDEX_V3 {
        grouped::get_block_with_key(opened, data, STORE_BLOCK_LEN, key)
    } else {
        grouped::get_block_with_key(opened, data, STORE_BLOCK_LEN_V4, key)
    }
}

// Where the separator of block `block_id` stands: its offset and its length.
pub fn separator_place(opened: SSTableIndexV3, data: &[u8], block_id: u64) -> Option<(usize, usize)>
    ensures { result ≡ place_def opened «data».now block_id }
{
    grouped::separator_place(opened, data, opened.group_len(), block_id)
}

// The separator of block `block_id`, as a part of the bytes; an empty part where there is none: docs/SPECIFICATION.md 9.5 says so.
pub fn separator(opened: SSTableIndexV3, data: &[u8], block_id: u64) -> &[u8]
    ensures { result.now ≡ part_at «data».now (place_def opened «data».now block_id) }
{
    let (offset, len) = separator_place(opened, data, block_id).unwrap_or((0, 0));
    let end = offset + len;
    &data[offset..end]
}
