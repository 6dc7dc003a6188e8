// The builder that the lines are about, and whether its answers are those of the list.
use crate::areas::{Areas, MARK, are_same_but};
use builder::{Refused, SSTableIndexBuilder};
use builder_add::{add_block, shorten_last_block_key_given_next_key};
use builder_finish::{finish, finish_len};
use group::BlockAddr;
use layout::MAX_BLOCKS;
use layout::refusals::Refusal;
use std::alloc::{AllocError, Global};
use vector_parts::area::front;
use vector_parts::told::is_told;

// No area of a line is longer.
const MOST_NUMBERS: u64 = 1300;

const MOST_BYTES: u64 = 4096;

// A builder and its areas.
#[derive(Drop)]
pub struct Lent {
    builder: SSTableIndexBuilder,
    areas: Areas,
}

impl Lent {
    pub fn new(alloc: Global, blocks: usize, keys: usize) -> Result<Lent, AllocError> {
        Ok(Lent {
            builder: SSTableIndexBuilder::new(0),
            areas: Areas::new(alloc, blocks, keys)?,
        })
    }

    // ROOM KEYROOM: a fresh builder over areas full of marks
    pub fn renew(&mut self, alloc: Global, given: &[u64]) -> Result<bool, AllocError> {
        match *given {
            [blocks @ ..=MOST_NUMBERS, keys @ ..=MOST_BYTES] => {
                *self = Lent::new(alloc, blocks as usize, keys as usize)?;
                Ok(true)
            }
            _ => Ok(false),
        }
    }

    // N COUNT V1 .. KEYS: a builder with any count over areas with any content
    pub fn set(&mut self, alloc: Global, given: &[u64], keys: &[u8]) -> Result<bool, AllocError> {
        match given {
            [n, count, blocks @ ..]
                if *count == blocks.len() as u64 && keys.len() as u64 <= MOST_BYTES => {
                *self = Lent {
                    builder: SSTableIndexBuilder::new(*n as usize),
                    areas: Areas::with(alloc, blocks, keys)?,
                };
                Ok(true)
            }
            _ => Ok(false),
        }
    }

    // START END ORD NO, and the key: an add
    pub fn adds(&mut self, given: &[u64], key: &[u8]) -> Result<bool, AllocError> {
        let [start, end, first_ordinal, no] = *given else {
            return Ok(false);
        };
        let before = self.areas.clone()?;
        let n = self.builder.n;
        let block = BlockAddr::from([start, end, first_ordinal]);
        let answer = self.add(key, block);
        // A match: map_or_else would take two closures.
        Ok(
            is_told(&[no], answer.map(|()| []))
                && match answer {
                    Ok(()) => {
                        self.builder.n.checked_sub(n) == Some(1)
                            && is_added(n, block, key, &before, &self.areas)
                    }
                    Err(_) => self.builder.n == n && before == self.areas,
                },
        )
    }

    // Keeps the builder that a call hands back in either case.
    fn keep(&mut self, answer: Result<SSTableIndexBuilder, Refused>) -> Result<(), Refusal> {
        match answer {
            Ok(builder) => {
                self.builder = builder;
                Ok(())
            }
            Err(Refused { refusal, builder }) => {
                self.builder = builder;
                Err(refusal)
            }
        }
    }

    pub fn count(&self) -> u64 {
        self.builder.n as u64
    }

    pub fn add(&mut self, key: &[u8], block: BlockAddr) -> Result<(), Refusal> {
        let areas = &mut self.areas;
        let answer = add_block(self.builder, &mut areas.blocks, &mut areas.keys, key, block);
        self.keep(answer)
    }

    // NO, and the next key: the last key is shortened
    pub fn shortens(&mut self, given: &[u64], next_key: &[u8]) -> Result<bool, AllocError> {
        let [no] = *given else {
            return Ok(false);
        };
        let before = self.areas.clone()?;
        let n = self.builder.n;
        let areas = &mut self.areas;
        let called = shorten_last_block_key_given_next_key(
            self.builder,
            &mut areas.blocks,
            &mut areas.keys,
            next_key,
        );
        let answer = self.keep(called);
        // A match: map_or_else would take two closures for these two lines.
        Ok(
            is_told(&[no], answer.map(|()| []))
                && self.builder.n == n
                && match answer {
                    Ok(()) => is_shortened(n, &before, &self.areas),
                    Err(_) => before == self.areas,
                },
        )
    }

    // N, and all keys joined
    pub fn holds(&self, given: &[u64], content: &[u8]) -> bool {
        given == [self.builder.n as u64].as_slice()
            && self.areas.keys_end(self.builder.n) == Some(content.len() as u64)
            && self.areas.keys.starts_with(content)
    }

    // VERSION ROOM NO TOTAL DIRECTORY, and the index: a finish into ROOM bytes
    pub fn finishes(&self, alloc: Global, given: &[u64], index: &[u8]) -> Result<bool, AllocError> {
        let [version, due @ ..] = given else {
            return Ok(false);
        };
        let written = self.finished(alloc, *version, due, MOST_BYTES)?;
        Ok(written.is_some_and(|written| written.as_slice() == index))
    }

    // The index of this version that a finish into ROOM bytes writes, if it answers NO TOTAL DIRECTORY and leaves the other bytes.
    pub fn finished(
        &self,
        alloc: Global,
        version: u64,
        given: &[u64],
        most: u64,
    ) -> Result<Option<Vec<u8>>, AllocError> {
        let [room, due @ ..] = given else {
            return Ok(None);
        };
        let [no, total, _] = *due else {
            return Ok(None);
        };
        if *room > most {
            return Ok(None);
        }
        let areas = &self.areas;
        let is_length = match finish_len(version, self.builder, &areas.blocks, &areas.keys) {
            Ok(len) if no == u64::from(u32::from(Refusal::OutShort)) => len as u64 > *room,
            answer => is_told(&[no, total], answer.map(|len| [len as u64])),
        };
        let mut out = vec![in alloc; MARK; *room as usize]?;
        let answer = finish(version, self.builder, &areas.blocks, &areas.keys, &mut out);
        let handed_back = answer.map_or_else(|refused| refused.builder, |written| written.builder);
        let lens = answer
            .map(|written| [written.total as u64, written.directory_len as u64])
            .map_err(|refused| refused.refusal);
        let is_due = handed_back.n == self.builder.n && is_told(due, lens);
        let end = total as usize;
        if is_length && is_due && front(&out, end, MARK).is_some() {
            out.truncate(end);
            return Ok(Some(out));
        }
        Ok(None)
    }
}

// Whether the block's record and key stand behind those of `n` blocks, and nothing else changed.
fn is_added(n: usize, block: BlockAddr, key: &[u8], before: &Areas, after: &Areas) -> bool {
    let Some(offset) = before.keys_end(n) else {
        return false;
    };
    let from = offset as usize;
    let Some(to) = from.checked_add(key.len()) else {
        return false;
    };
    let [start, end, first_ordinal] = <[u64; 3]>::from(block);
    let record = [start, end, first_ordinal, offset, key.len() as u64];
    n <= MAX_BLOCKS
        && after.record(n) == Some(record)
        && are_same_but(&before.blocks, &after.blocks, 5 * n, 5 * n + 5)
        && after.keys.get(from..to) == Some(key)
        && are_same_but(&before.keys, &after.keys, from, to)
}

// Whether at most the last key's length and its last byte changed.
fn is_shortened(n: usize, before: &Areas, after: &Areas) -> bool {
    if n == 0 {
        return before == after;
    }
    let (Some(old_record), Some(record)) = (before.record(n - 1), after.record(n - 1)) else {
        return false;
    };
    let Some(end) = after.keys_end(n) else {
        return false;
    };
    let [.., old_len] = old_record;
    let [.., len] = record;
    let last = end as usize;
    let first = last.saturating_sub(usize::from(len > 0));
    n <= MAX_BLOCKS
        && len <= old_len
        && are_same_but(&before.blocks, &after.blocks, 5 * n - 1, 5 * n)
        && are_same_but(&before.keys, &after.keys, first, last)
}
