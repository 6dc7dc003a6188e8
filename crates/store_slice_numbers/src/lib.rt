// The store of records that are given as three numbers each.
#![tactic(auto)]

ghost use Rattle.std.specs.Prelude.{◌≡◌, ◌*◌, ◌≤◌, min, length};
ghost use Rattle.layout.specs.Layout.{max_blocks};
ghost use Rattle.store.specs.Facts.{GroupLenOk};
ghost use Rattle.store.specs.Store.{group_count};
ghost use Rattle.store_slice.specs.Slice.{stored_answer, slice_stored_by, slice_out_by, slice_stored, slice_out};
ghost use Rattle.store_slice.specs.Numbers.{blocks_of_numbers};

use group::BlockAddr;
use layout::refusals::Refusal;
use layout::versions;
use store_slice::records::Records;
use store_slice::writer::BlockAddrStoreWriter;

// As many records take small areas, so that a short list doesn't clear the large ones.
const FEW: usize = 16;

const SOME: usize = 1_024;

// A list of records: start, end and first ordinal of each. It is lent, as C has it. A type of its own beside store_slice's `Structs`: the
// blocks of its ghost are another function of the records, and `Into`, which both could ask for, names none.
#[derive(Clone, Copy)]
pub struct Numbers<'a> {
    pub records: &'a [[u64; 3]],
}

impl<'a> Records for Numbers<'a> {
    ghost blocks = { λ s. blocks_of_numbers s.records.now };

    fn count(&self) -> usize {
        self.records.len()
    }

    #[inline]
    fn block(&self, i: usize) -> BlockAddr {
        BlockAddr::from(self.records[i])
    }
}

// Writes the store of the records from the front of `out` on, in groups of 128 to 256 blocks. Returns its length.
fn serialize_grouped(
    blocks: &[[u64; 3]],
    group_len: usize,
    out: &mut [u8],
) -> Result<usize, Refusal>
    requires { (128 ≤ group_len) × (group_len ≤ 256) }
    ensures { (stored_answer result ≡ slice_stored_by group_len (blocks_of_numbers blocks.now) out.old)
        × (out.new ≡ slice_out_by group_len (blocks_of_numbers blocks.now) out.old) }
{
    let writer = BlockAddrStoreWriter {
        records: &Numbers { records: blocks },
        group_len,
    };
    match blocks.len() {
        0..=FEW => writer.serialize_in::<48, 2>(out),
        0..=SOME => writer.serialize_in::<768, 16>(out),
        _ => writer.serialize_in::<768, 1_024>(out),
    }
}

// Writes the store of the records, in groups as an index of this version has them, from the front of `out` on. Returns its length.
#[tactic(auto, using(store_slice::proofs::Answer::version_taken))]
pub fn serialize(version: u64, blocks: &[[u64; 3]], out: &mut [u8]) -> Result<usize, Refusal>
    ensures { (stored_answer result ≡ slice_stored version (blocks_of_numbers blocks.now) out.old)
        × (out.new ≡ slice_out version (blocks_of_numbers blocks.now) out.old) }
{
    versions::check_version(version)?;
    serialize_grouped(blocks, versions::group_len(version), out)
}
