// The address store of one lent slice of block records: `BlockAddrStoreWriter` over a list.
#![tactic(auto)]

ghost use Rattle.std.specs.Prelude.{◌≡◌};
ghost use Rattle.store_slice.specs.Slice.{stored_answer, slice_stored, slice_out};

pub mod records;
pub mod rows;
pub mod writer;

use group::BlockAddr;
use layout::refusals::Refusal;
use layout::versions;
use records::Structs;
use writer::BlockAddrStoreWriter;

// Writes the store of the blocks, in groups as an index of this version has them, from the front of `out` on. Returns its length.
#[tactic(auto, using(crate::proofs::Answer::version_taken))]
pub fn serialize(version: u64, blocks: &[BlockAddr], out: &mut [u8]) -> Result<usize, Refusal>
    ensures { (stored_answer result ≡ slice_stored version blocks.now out.old)
        × (out.new ≡ slice_out version blocks.now out.old) }
{
    versions::check_version(version)?;
    let writer = BlockAddrStoreWriter {
        records: &Structs { blocks },
        group_len: versions::group_len(version),
    };
    writer.serialize_in::<768, 1_024>(out)
}
