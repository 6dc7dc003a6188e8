// Adding a block and shortening the last key. The builder goes in by value, and comes back inside the answer. Builder, blocks and keys
// stay three parameters here and in other crates, as C hands them; here both areas are written, too.
#![tactic(auto)]

mod add;
mod shorten;

ghost use Rattle.std.specs.Prelude.{◌≡◌};
ghost use Rattle.builder.specs.Calls.{called, AnswerCased, add_def, shorten_def};

use builder::{Refused, SSTableIndexBuilder};
use group::BlockAddr;

// Adds a block after the last one.
pub fn add_block(
    builder: SSTableIndexBuilder,
    blocks: &mut [u64],
    keys: &mut [u8],
    last_key: &[u8],
    block: BlockAddr,
) -> Result<SSTableIndexBuilder, Refused>
    ensures answers { called result blocks.new keys.new
        ≡ add_def builder blocks.old keys.old last_key.now block }
    ensures answer_cased { AnswerCased result }
{
    builder.hand_back(add::add_block(builder, blocks, keys, last_key, block))
}

// Shortens the last block's key to one that is still below `next_key`.
pub fn shorten_last_block_key_given_next_key(
    builder: SSTableIndexBuilder,
    blocks: &mut [u64],
    keys: &mut [u8],
    next_key: &[u8],
) -> Result<SSTableIndexBuilder, Refused>
    ensures answers { called result blocks.new keys.new
        ≡ shorten_def builder blocks.old keys.old next_key.now }
    ensures answer_cased { AnswerCased result }
{
    builder.hand_back(shorten::shorten_last_block_key_given_next_key(
        builder, blocks, keys, next_key,
    ))
}
