// One function for each kind of line: whether the proved functions give the answers of the list.
use crate::{blocks, hash, stores};
use group::BlockAddr;
use std::alloc::{AllocError, Global};

const MOST_BLOCKS: u64 = 1000;

const MOST_ROOM: u64 = 4096;

// VERSION COUNT START END ORDINAL .., and the store
pub fn is_store(alloc: Global, given: &[u64], store: &[u8]) -> Result<bool, AllocError> {
    let [version, n, area @ ..] = given else {
        return Ok(false);
    };
    let Some(blocks) = blocks::legal(*version, area) else {
        return Ok(false);
    };
    let Some(written) = stores::written(alloc, &blocks)? else {
        return Ok(false);
    };
    Ok(
        *n == blocks.n as u64
            && written.as_slice() == store
            && stores::is_written_from_slice(alloc, *version, &blocks, store)?
            && stores::are_found(*version, &blocks, store),
    )
}

// VERSION SEED COUNT LENGTH HASH: blocks by the rule, and their store
pub fn is_large(alloc: Global, given: &[u64]) -> Result<bool, AllocError> {
    let [version, seed, n, len, hash] = *given else {
        return Ok(false);
    };
    if n > MOST_BLOCKS {
        return Ok(false);
    }
    let area = blocks::generate(alloc, seed, n as usize)?;
    let Some(blocks) = blocks::legal(version, &area) else {
        return Ok(false);
    };
    let Some(store) = stores::written(alloc, &blocks)? else {
        return Ok(false);
    };
    Ok(
        store.len() as u64 == len
            && hash::fnv1a(&store) == hash
            && stores::is_written_from_slice(alloc, version, &blocks, &store)?
            && stores::are_found(version, &blocks, &store),
    )
}

// VERSION ROOM NO COUNT START END ORDINAL ..
pub fn is_refused(alloc: Global, given: &[u64]) -> Result<bool, AllocError> {
    let [version, room, no, n, numbers @ ..] = given else {
        return Ok(false);
    };
    let (blocks, []) = numbers.as_chunks::<3>() else {
        return Ok(false);
    };
    if *room > MOST_ROOM || *n != blocks.len() as u64 {
        return Ok(false);
    }
    stores::is_refused(alloc, *version, *room as usize, *no, blocks)
}

// VERSION COUNT ID START END ORDINAL
pub fn is_block(given: &[u64], store: &[u8]) -> bool {
    let [version, n, id, start, end, first_ordinal] = *given else {
        return false;
    };
    let block = BlockAddr::from([start, end, first_ordinal]);
    stores::get(version, store, n as usize, id as usize) == Some(block)
}

// VERSION COUNT ID
pub fn is_unknown(given: &[u64]) -> bool {
    let [_version, n, id] = *given else {
        return false;
    };
    id >= n
}

// VERSION COUNT ORDINAL ID START END ORDINAL
pub fn is_located(given: &[u64], store: &[u8]) -> bool {
    let [version, n, ord, id, start, end, first_ordinal] = *given else {
        return false;
    };
    let block = BlockAddr::from([start, end, first_ordinal]);
    // By field: a Located to compare with would be made of the line's number by a cast.
    stores::locate(version, store, n as usize, ord).is_some_and(|found| found.block_id as u64 == id
        && found.addr == block)
}
