// Writing a group: its plan, its record, its fields.
#![tactic(auto)]

ghost use Rattle.std.specs.Prelude.{◌≡◌, ◌+◌, ◌-◌, ◌*◌, ◌^◌, ◌≤◌, ◌<◌, length, [], ◌∷◌};
ghost use Rattle.std.proofs.lemmas.List.Edits.{sets};
ghost use Rattle.layout.specs.Layout.{max_blocks};
ghost use Rattle.slope.specs.Slope.{best_slope, stored_of};
ghost use Rattle.group.specs.Blocks.{block_at};
ghost use Rattle.group.specs.Write.{meta_of, plan_of, addr_bytes};
ghost use Rattle.group.specs.Facts.{GroupArea, Fitting};

use bitpacker::BitPacker;
use group::area::{END, FIRST_ORDINAL};
use group::line::Line;
use group::{BlockAddr, BlockAddrBlockMetadata};
use slope::{Column, Slope};

// What is stored of value i, a number that isn't below the line's first.
fn stored(line: Line, value: u64, i: usize) -> u64
    requires { (line.first ≤ value) × (value - line.first < 2 ^ 62) × (i ≤ max_blocks)
        × (line.slope * i ≤ value - line.first + 2 ^ (line.nbits - 1)) }
    ensures { result ≡ stored_of line.slope line.nbits i (value - line.first) }
{
    value - line.first + (1u64 << (line.nbits - 1)) - u64::from(line.slope) * (i as u64)
}

// A group of legal blocks in a lent area (the library has no heap): the `count` ones from block `first` on, with `stride` numbers each.
#[derive(Clone, Copy)]
pub struct AreaGroup<'a> {
    pub area: &'a [u64],
    pub stride: usize,
    pub first: usize,
    pub count: usize,
    pub ghost ok: { GroupArea area.now stride first count },
}

impl<'a> AreaGroup<'a> {
    ghost use Rattle.group_write.specs.Group.{first_of, rest_of, record_of};

    // Block i of the group.
    fn block(&self, i: usize) -> BlockAddr
        requires { i < self.now.count }
        ensures { result ≡ block_at self.now.area.now self.now.stride (self.now.first + i) }
    {
        group::area::block_at(self.area, self.stride * (self.first + i))
    }

    // The group's record with these slopes and widths; its bits are to stand at `offset`.
    fn record(&self, range: Slope, ordinal: Slope, offset: u64) -> BlockAddrBlockMetadata
        ensures { result ≡ record_of self.now range ordinal offset }
    {
        let first = self.block(0);
        BlockAddrBlockMetadata {
            offset,
            range_start: first.start,
            first_ordinal: first.first_ordinal,
            range_start_slope: range.slope,
            first_ordinal_slope: ordinal.slope,
            first_ordinal_nbits: ordinal.nbits,
            range_start_nbits: range.nbits,
            block_len: (self.count - 1) as u16,
        }
    }

    // The group's record; its bits are to stand at `offset`.
    pub fn plan_block(&self, offset: u64) -> BlockAddrBlockMetadata
        ensures { result ≡ meta_of best_slope offset (first_of self.now) (rest_of self.now) }
    {
        let first = self.block(0);
        let at = self.stride * self.first;
        let ends = Column {
            area: self.area,
            at: at + END,
            stride: self.stride,
            base: first.start,
            count: self.count,
        };
        let ordinals = Column {
            area: self.area,
            at: at + self.stride + FIRST_ORDINAL,
            stride: self.stride,
            base: first.first_ordinal,
            count: self.count - 1,
        };
        self.record(ends.find_best_slope(), ordinals.find_best_slope(), offset)
    }

    // The record that `plan_block` gave, from what was kept of it: two numbers. With a struct of two slopes in their place the loop of
    // `flush_block`, as it is inlined now, takes two instructions more a block: the store of 60,000 blocks took 940 us in place of 867.
    pub fn planned_block(&self, range: u64, ordinal: u64, offset: u64) -> BlockAddrBlockMetadata
        requires { range ∷ ordinal ∷ [] ≡ plan_of (meta_of best_slope 0 (first_of self.now) (rest_of self.now)) }
        ensures { result ≡ meta_of best_slope offset (first_of self.now) (rest_of self.now) }
    {
        self.record(Slope::unpacked(range), Slope::unpacked(ordinal), offset)
    }

    // Writes the group's bits from the front of `out` on. Returns how many bytes they take.
    pub fn flush_block(&self, meta: BlockAddrBlockMetadata, out: &mut [u8]) -> usize
        requires { Fitting meta (first_of self.now) (rest_of self.now)
            × (length (addr_bytes meta (first_of self.now) (rest_of self.now)) ≤ length out.old) }
        ensures { (result ≡ length (addr_bytes meta (first_of self.now) (rest_of self.now)))
            × (out.new ≡ sets out.old 0 (addr_bytes meta (first_of self.now) (rest_of self.now))) }
    {
        let ranges = meta.ranges();
        let ordinals = meta.ordinals();
        let mut packer = BitPacker::new();
        // A loop by number: each turn takes a block out by its place, hands on the packer and writes, which a closure would hide.
        for i in 1..self.count {
            let block = self.block(i);
            let range = stored(ranges, block.start, i);
            let ordinal = stored(ordinals, block.first_ordinal, i);
            packer = packer.write(range, ranges.nbits, out);
            packer = packer.write(ordinal, ordinals.nbits, out);
        }
        let last = self.block(self.count - 1);
        let range = stored(ranges, last.end, self.count);
        packer = packer.write(range, ranges.nbits, out);
        packer.flush(out)
    }
}
