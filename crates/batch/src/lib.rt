// The blocks of up to 64 keys in one lookup.
#![tactic(auto)]

pub mod grouped;

ghost use Rattle.layout.specs.Refusals.{no_of};
ghost use Rattle.batch.specs.Batch.{LocateWithKeys};

use index::SSTableIndexV3;
use layout::refusals::Refusal;

// Writes the id of the block of each key at the front of `ids`. The C interface calls it, which hands over no group length, and record
// and bytes, pairs and keys apart.
pub fn locate_with_keys(
    opened: SSTableIndexV3,
    data: &[u8],
    pairs: &[u64],
    keys: &[u8],
    ids: &mut [u64],
) -> Result<(), Refusal>
    ensures { LocateWithKeys «data».now opened pairs.now keys.now ids.old ids.new (no_of result) }
{
    grouped::locate_with_keys(opened, data, opened.group_len(), pairs, keys, ids)
}
