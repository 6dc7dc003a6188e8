// Building an index.
ghost use Rattle.std.specs.Prelude.{◌≡◌};
ghost use Rattle.keys.specs.Order.{common_prefix_len};
ghost use Rattle.builder.specs.Calls.{builder_of, called_with, add_def, shorten_def};
ghost use Rattle.builder.specs.Finish.{finish_in, finish_len_in};
ghost use Rattle.rosmarel.specs.Answers.{block_with, finish_by, len_no, len_total};

use crate::answers::put_count;
use builder::SSTableIndexBuilder;
use group::BlockAddr;
use layout::refusals;

// Adds a block behind the last one. A refusal leaves `n`.
#[unsafe(no_mangle)]
pub extern "C" fn rosmarel_add(
    n: &mut u64,
    blocks: &mut [u64],
    keys: &mut [u8],
    key: &[u8],
    start: u64,
    end: u64,
    first_ordinal: u64,
) -> u32
    ensures { called_with result (builder_of n.new) blocks.new keys.new
        ≡ add_def (builder_of n.old) blocks.old keys.old key.now
        (block_with start end first_ordinal) }
{
    let builder = SSTableIndexBuilder::new(*n as usize);
    let block = BlockAddr {
        start,
        end,
        first_ordinal,
    };
    let added = builder_add::add_block(builder, blocks, keys, key, block);
    let (number, left) = builder::number_and_builder(added);
    *n = left.n as u64;
    number
}

// Shortens the last block's key to one that is still below `next_key`.
#[unsafe(no_mangle)]
pub extern "C" fn rosmarel_shorten(
    n: u64,
    blocks: &mut [u64],
    keys: &mut [u8],
    next_key: &[u8],
) -> u32
    ensures { called_with result (builder_of n) blocks.new keys.new
        ≡ shorten_def (builder_of n) blocks.old keys.old next_key.now }
{
    let builder = SSTableIndexBuilder::new(n as usize);
    let shortened = builder_add::shorten_last_block_key_given_next_key(
        builder, blocks, keys, next_key,
    );
    builder::number_and_builder(shortened).0
}

// Writes the index, of this version, from the front of `out` on.
#[unsafe(no_mangle)]
pub extern "C" fn rosmarel_finish(
    version: u64,
    n: u64,
    blocks: &[u64],
    keys: &[u8],
    out: &mut [u8],
    total: &mut u64,
    directory_len: &mut u64,
) -> u32
    ensures { finish_by result n out.new total.new directory_len.new
        ≡ finish_in version (builder_of n) blocks.now keys.now out.old }
{
    let builder = SSTableIndexBuilder::new(n as usize);
    let written = builder_finish::finish(version, builder, blocks, keys, out).map_err(
        |refused| refused.refusal,
    );
    let (len, directory) = written.map_or((0, 0), |written| (written.total, written.directory_len));
    *total = len as u64;
    *directory_len = directory as u64;
    refusals::number(written)
}

// The total that a finish would need.
#[unsafe(no_mangle)]
pub extern "C" fn rosmarel_finish_len(
    version: u64,
    n: u64,
    blocks: &[u64],
    keys: &[u8],
    total: &mut u64,
) -> u32
    ensures value { result ≡ len_no (finish_len_in version (builder_of n) blocks.now keys.now) }
    ensures total_after { total.new ≡ len_total (finish_len_in version (builder_of n) blocks.now keys.now) }
{
    let builder = SSTableIndexBuilder::new(n as usize);
    put_count(
        builder_finish::finish_len(version, builder, blocks, keys),
        total,
    )
}

// How many bytes two keys share at their front.
#[unsafe(no_mangle)]
pub extern "C" fn rosmarel_common_prefix_len(left: &[u8], right: &[u8]) -> u64
    ensures { result ≡ common_prefix_len left.now right.now }
{
    keys::common_prefix_len(left, right) as u64
}
