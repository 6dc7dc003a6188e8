// An add: its rows, and what it writes where none is hit.
ghost use Rattle.std.specs.Prelude.{◌≡◌, ◌+◌, ◌*◌, ◌≤◌, length};
ghost use Rattle.std.proofs.lemmas.List.Edits.{sets};
ghost use Rattle.builder.specs.View.{stride};
ghost use Rattle.builder.specs.Area.{record_numbers};
ghost use Rattle.builder.specs.Calls.{called, handed_back, add_def};

use builder::SSTableIndexBuilder;
use builder::record::{KEY_LEN, KEY_OFFSET, STRIDE};
use builder_rows::Areas;
use group::BlockAddr;
use group::area::put_block;
use layout::refusals::Refusal;

// Writes the record of block n, and its key from `offset` on.
fn append(
    n: usize,
    blocks: &mut [u64],
    keys: &mut [u8],
    offset: usize,
    key: &[u8],
    block: BlockAddr,
)
    requires { (stride * n + stride ≤ length blocks.old) × (offset + length key.now ≤ length keys.old) }
    ensures blocks_after { blocks.new
        ≡ sets blocks.old (stride * n) (record_numbers block (record { offset = offset; len = length key.now })) }
    ensures keys_after { keys.new ≡ sets keys.old offset key.now }
{
    let at = STRIDE * n;
    put_block(block, blocks, at);
    blocks[at + KEY_OFFSET] = offset as u64;
    blocks[at + KEY_LEN] = key.len() as u64;
    byte_copy::copy(key, &mut keys[offset..]);
}

// The builder with one block more, or the row that is hit.
pub fn add_block(
    builder: SSTableIndexBuilder,
    blocks: &mut [u64],
    keys: &mut [u8],
    last_key: &[u8],
    block: BlockAddr,
) -> Result<SSTableIndexBuilder, Refusal>
    ensures { called (handed_back builder result) blocks.new keys.new
        ≡ add_def builder blocks.old keys.old last_key.now block }
{
    let areas = Areas::check(builder, blocks, keys)?;
    areas.check_add(last_key, block)?;
    let offset = areas.next_key();
    append(builder.n, blocks, keys, offset, last_key, block);
    Ok(SSTableIndexBuilder::new(builder.n + 1))
}
