// A builder that takes as many blocks as there may be, and its index.
ghost use Rattle.std.specs.Prelude.{◌≤◌, ◌<◌};

use crate::lent::Lent;
use group::BlockAddr;
use std::alloc::{AllocError, Global};
use vector_parts::area::remainder;
use vector_parts::told::is_told;

const MOST_BLOCKS: u64 = 65536;

// Areas with room for one block more than there may be.
const ROOM: usize = 327685;

const KEY_ROOM: usize = 262148;

const LONGEST_INDEX: u64 = 1100000;

// The prime 2^56 - 5, by which the number that an index's bytes spell is divided.
const MODULUS: u64 = 72057594037927931;

// Where block i starts, and its ordinal: both rise unevenly, so that the fields of a group differ.
fn start_of(i: u64) -> u64
    requires { i ≤ 65536 }
{
    65536 * i + 40503 * i % 65536
}

fn ordinal_of(i: u64) -> u64
    requires { i ≤ 65536 }
{
    1000 * i + 617 * i % 1000
}

// A builder that took `count` blocks by the rule.
fn filled(alloc: Global, count: u64) -> Result<Option<Lent>, AllocError> {
    if count > MOST_BLOCKS {
        return Ok(None);
    }
    let mut lent = Lent::new(alloc, ROOM, KEY_ROOM)?;
    let all_taken = (0..count).all(|i| {
        let block = BlockAddr::from([start_of(i), start_of(i + 1), ordinal_of(i)]);
        lent.add(&(i as u32).to_be_bytes(), block).is_ok() && lent.count() == i + 1
    });
    Ok(all_taken.then_some(lent))
}

// COUNT START END ORD NO, and the key: the blocks of the rule are taken, and one more add gets this number
pub fn adds(alloc: Global, given: &[u64], key: &[u8]) -> Result<bool, AllocError> {
    let [count, start, end, first_ordinal, due @ ..] = given else {
        return Ok(false);
    };
    let Some(mut lent) = filled(alloc, *count)? else {
        return Ok(false);
    };
    let block = BlockAddr::from([*start, *end, *first_ordinal]);
    Ok(is_told(due, lent.add(key, block).map(|()| [])))
}

// VERSION COUNT ROOM NO TOTAL DIRECTORY REMAINDER: the blocks of the rule are taken, and a finish into ROOM bytes answers this
pub fn finishes(alloc: Global, given: &[u64]) -> Result<bool, AllocError> {
    let [version, count, due @ .., expected] = given else {
        return Ok(false);
    };
    let Some(lent) = filled(alloc, *count)? else {
        return Ok(false);
    };
    let index = lent.finished(alloc, *version, due, LONGEST_INDEX)?;
    Ok(index.is_some_and(|index| remainder(&index, 256, MODULUS) == *expected))
}
