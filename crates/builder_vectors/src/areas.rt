// The areas that are lent to a builder: five numbers for each block, and the bytes of the keys.
use layout::MAX_BLOCKS;
use std::alloc::{AllocError, Global};

const NUMBER_MARK: u64 = 0xa5a5_a5a5_a5a5_a5a5;

pub const MARK: u8 = 0xa5;

#[derive(Clone, PartialEq, Eq, Drop)]
pub struct Areas {
    pub blocks: Vec<u64>,
    pub keys: Vec<u8>,
}

impl Areas {
    // Areas full of marks.
    pub fn new(alloc: Global, blocks: usize, keys: usize) -> Result<Areas, AllocError> {
        Ok(Areas {
            blocks: vec![in alloc; NUMBER_MARK; blocks]?,
            keys: vec![in alloc; MARK; keys]?,
        })
    }

    pub fn with(alloc: Global, blocks: &[u64], keys: &[u8]) -> Result<Areas, AllocError> {
        Ok(Areas {
            blocks: blocks.to_vec(alloc)?,
            keys: keys.to_vec(alloc)?,
        })
    }

    // Block i's start, end and first ordinal, and its key's offset and length.
    pub fn record(&self, i: usize) -> Option<[u64; 5]> {
        self.blocks.as_chunks::<5>().0.get(i).copied()
    }

    // Number k of the blocks; 0 where the area ends before it.
    fn number(&self, k: usize) -> u64 {
        self.blocks.get(k).copied().unwrap_or(0)
    }

    // Where the keys of n blocks end.
    pub fn keys_end(&self, n: usize) -> Option<u64> {
        if n == 0 {
            return Some(0);
        }
        if n > MAX_BLOCKS {
            return None;
        }
        self.number(5 * n - 2).checked_add(self.number(5 * n - 1))
    }
}

// Whether two areas are the same but for the places from `from` up to, not including, `end`.
pub fn are_same_but<T: PartialEq>(old: &[T], new: &[T], from: usize, end: usize) -> bool {
    from <= end
        && end <= old.len()
        && end <= new.len()
        && &old[..from] == &new[..from]
        && &old[end..] == &new[end..]
}
