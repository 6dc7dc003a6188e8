// Finishing: the index of the builder's areas.
#![tactic(auto)]

mod write;

ghost use Rattle.std.specs.Prelude.{◌≡◌};
ghost use Rattle.builder.specs.Calls.{handed_back};
ghost use Rattle.builder.specs.Finish.{finish_of, FinishedCased, finish_in, finish_len_of, finish_len_in};

use builder::{Refused, SSTableIndexBuilder, Written};
use builder_list::CheckedList;
use layout::refusals::Refusal;
use layout::versions;

// As many blocks make 8 groups at most: their plans take a small area, so that a short list doesn't clear the large one.
const FEW_BLOCKS: usize = 1_024;

// Finishes the areas, if no row is hit.
fn finish_areas(
    version: u64,
    builder: SSTableIndexBuilder,
    blocks: &[u64],
    keys: &[u8],
    out: &mut [u8],
) -> Result<Written, Refusal>
    ensures { finish_of (handed_back builder result) out.new
        ≡ finish_in version builder blocks.now keys.now out.old }
{
    versions::check_version(version)?;
    let group_len = versions::group_len(version);
    let list = CheckedList::check(builder, blocks, keys)?;
    if builder.n <= FEW_BLOCKS {
        write::finish_with::<16>(&list, group_len, out)
    } else {
        write::finish_with::<1_024>(&list, group_len, out)
    }
}

// Writes the index, of this version, from the front of `out` on: the Rust's `serialize`.
pub fn finish(
    version: u64,
    builder: SSTableIndexBuilder,
    blocks: &[u64],
    keys: &[u8],
    out: &mut [u8],
) -> Result<Written, Refused>
    ensures finishes { finish_of result out.new
        ≡ finish_in version builder blocks.now keys.now out.old }
    ensures finished_cased { FinishedCased result }
{
    builder.hand_back(finish_areas(version, builder, blocks, keys, out))
}

// The total that a finish would need: rows 30, 1 and 8 as finish has them.
pub fn finish_len(
    version: u64,
    builder: SSTableIndexBuilder,
    blocks: &[u64],
    keys: &[u8],
) -> Result<usize, Refusal>
    ensures { finish_len_of result ≡ finish_len_in version builder blocks.now keys.now }
{
    versions::check_version(version)?;
    let group_len = versions::group_len(version);
    let list = CheckedList::check(builder, blocks, keys)?;
    if builder.n <= FEW_BLOCKS {
        Ok(write::index_len::<16>(&list, group_len))
    } else {
        Ok(write::index_len::<1_024>(&list, group_len))
    }
}
