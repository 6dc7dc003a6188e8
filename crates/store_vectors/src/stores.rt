// What is asked of the library.
ghost use Rattle.std.specs.Prelude.{◌≤◌, ◌*◌, length};
ghost use Rattle.store.specs.Store.{group_count};

use crate::blocks::STRIDE;
use group::BlockAddr;
use group::area::block_at;
use layout::{MAX_BLOCKS, META_LEN, versions};
use std::alloc::{AllocError, Global};
use store::Located;
use store::grouping::Grouping;
use store_read::BlockAddrStore;
use store_write::AreaStore;
use vector_parts::area::{framed, front};
use vector_parts::told::is_told;

// What fills an area before a store is written into it.
const MARK: u8 = 0xa5;

// Where a store begins in its area.
const PLACE: usize = 16;

const AREA_LEN: usize = 16384;

// The bytes of the records' length.
const LENGTH: usize = 8;

// The numbers that the plan of a group takes.
const PLAN_LEN: usize = 2;

// Writes the blocks' store from PLACE on. Returns how many bytes that are, if as many as planned.
fn write(blocks: &AreaStore, kept: &mut [u64], out: &mut [u8]) -> Option<usize>
    requires { (2 * group_count blocks.now.group_len blocks.now.n ≤ length kept.old) × (16 ≤ length out.old) }
{
    let len = blocks.plan(kept);
    if len > out.len() - PLACE {
        return None;
    }
    let written = blocks.serialize(kept, &mut out[PLACE..]);
    (written == len).then_some(len)
}

// The blocks' store, if no other bytes are written.
pub fn written(alloc: Global, blocks: &AreaStore) -> Result<Option<Vec<u8>>, AllocError> {
    let grouping = Grouping {
        n: blocks.n,
        group_len: blocks.group_len,
    };
    let mut kept = vec![in alloc; 0u64; PLAN_LEN * grouping.group_count()]?;
    let mut out = vec![in alloc; MARK; AREA_LEN]?;
    let len = write(blocks, &mut kept, &mut out);
    let Some(store) = len.and_then(|len| framed(&out, PLACE, len, MARK)) else {
        return Ok(None);
    };
    Ok(Some(store.to_vec(alloc)?))
}

// Whether the blocks' store of this version, written from a slice of structs, is this one.
pub fn is_written_from_slice(
    alloc: Global,
    version: u64,
    blocks: &AreaStore,
    store: &[u8],
) -> Result<bool, AllocError> {
    let records: Vec<BlockAddr> = (0..blocks.n)
        .map(|id| block_at(blocks.area, STRIDE * id))
        .collect(alloc)?;
    let mut out = vec![in alloc; MARK; AREA_LEN]?;
    let written = store_slice::serialize(version, &records, &mut out[PLACE..]);
    Ok(written.is_ok_and(|len| framed(&out, PLACE, len, MARK) == Some(store)))
}

// Whether a store of these blocks, three numbers each, written from a slice of structs into so many bytes, is refused with this
// number, and no byte is written.
pub fn is_refused(
    alloc: Global,
    version: u64,
    room: usize,
    no: u64,
    blocks: &[[u64; 3]],
) -> Result<bool, AllocError> {
    let records: Vec<BlockAddr> = blocks
        .iter()
        .map(|block| BlockAddr::from(*block))
        .collect(alloc)?;
    let mut out = vec![in alloc; MARK; room]?;
    let written = store_slice::serialize(version, &records, &mut out);
    Ok(written.is_err() && is_told(&[no], written.map(|_| [])) && front(&out, 0, MARK).is_some())
}

// Whether each block is found in the store.
pub fn are_found(version: u64, blocks: &AreaStore, store: &[u8]) -> bool {
    (0..blocks.n).all(|id| {
        get(version, store, blocks.n, id) == Some(block_at(blocks.area, STRIDE * id))
    })
}

// The store of this version in these bytes, if it has records for n blocks. Version, bytes and count stay three, here and below, as a
// line gives them: each question opens them anew.
fn open(version: u64, store: &[u8], n: usize) -> Option<BlockAddrStore<'_>> {
    if !(1..=MAX_BLOCKS).contains(&n) {
        return None;
    }
    let (head, rest) = store.split_at_checked(LENGTH)?;
    let len = serialize::deserialize_u64(head, 0) as usize;
    let (metas, addrs) = rest.split_at_checked(len)?;
    let group_len = versions::group_len(version);
    let grouping = Grouping { n, group_len };
    if metas.len() < META_LEN * grouping.group_count() {
        return None;
    }
    Some(BlockAddrStore {
        metas,
        addrs,
        n,
        group_len,
    })
}

// The block of this id.
pub fn get(version: u64, store: &[u8], n: usize, id: usize) -> Option<BlockAddr> {
    let store = open(version, store, n)?;
    if id < store.n { store.get(id) } else { None }
}

// The block that holds the ordinal.
pub fn locate(version: u64, store: &[u8], n: usize, ord: u64) -> Option<Located> {
    open(version, store, n)?.binary_search_ord(ord).ok()
}
