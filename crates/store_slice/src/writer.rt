// The store of a list of records, which is gone over three times: the rows are looked at, the groups are planned, then they are
// written. So the store's length is known before a byte is written, and there is room for one group.
ghost use Rattle.std.specs.Prelude.{◌≡◌, ◌*◌, ◌≤◌, ◌<◌, min, length, take, drop};
ghost use Rattle.layout.specs.Layout.{max_blocks};
ghost use Rattle.layout.specs.Refusals.{no_of};
ghost use Rattle.slope.specs.Slope.{best_slope};
ghost use Rattle.group_write.specs.Group.{blocks_of};
ghost use Rattle.store.specs.Store.{group_count, addrs};
ghost use Rattle.store.specs.Plans.{plans, StandsAt};
ghost use Rattle.store.specs.Facts.{GroupLenOk};
ghost use Rattle.store_slice.specs.Slice.{block_list_no, stored_answer, slice_stored_by, slice_out_by};
ghost use Rattle.store_slice.specs.Writer.{Rooms};

use crate::records::Records;
use crate::rows::Seen;
use group::area::put_block;
use group_write::AreaGroup;
use layout::META_LEN;
use layout::refusals::Refusal;
use std::alloc::AllocError;
use store::grouping::Grouping;
use store_write::GroupPlace;

// The numbers of a record in the window: numbers and not blocks, since AreaGroup reads the builder's area, which is C's numbers with five
// a block, by the same code.
pub const STRIDE: usize = 3;

// A list's records, in groups of `group_len`. They are lent, so that a writer is copied whatever they are.
pub struct BlockAddrStoreWriter<'a, R> {
    pub records: &'a R,
    pub group_len: usize,
    pub ghost len: { GroupLenOk group_len },
}

// By hand, since a derive asks the same of the records.
impl<'a, R> Clone for BlockAddrStoreWriter<'a, R> {
    ghost is_clone = { λ x y. y ≡ x };

    ghost is_infallible = { λ _. Unit {0} };

    fn clone(&self) -> Result<BlockAddrStoreWriter<'a, R>, AllocError> {
        Ok(*self)
    }
}

impl<'a, R> Copy for BlockAddrStoreWriter<'a, R> {}

impl<'a, R: Records> BlockAddrStoreWriter<'a, R> {
    fn grouping(&self) -> Grouping
        ensures { (result.n ≡ length (R.blocks self.now.records.now)) × (result.group_len ≡ self.now.group_len) }
    {
        Grouping {
            n: self.records.count(),
            group_len: self.group_len,
        }
    }

    // Rows 3, 4, 5 and 7.
    fn check_rows(&self) -> Result<(), Refusal>
        ensures { no_of result ≡ block_list_no (R.blocks self.now.records.now) }
    {
        let n = self.records.count();
        let seen = (0..n).fold(Seen::default(), |seen: Seen, i| {
            seen.with(self.records.block(i))
        });
        seen.check(n)
    }

    // Group g, whose records are put into the window: by place, as `put_block` does it for every area. That the rows are kept is a clause
    // here and below: a struct that says so would hold this writer alone, and each function reach the list through both.
    fn hold_group<'w>(&self, g: usize, window: &'w mut [u64]) -> AreaGroup<'w>
        requires { (block_list_no (R.blocks self.now.records.now) ≡ 0)
            × (g < group_count self.now.group_len (length (R.blocks self.now.records.now)))
            × (3 * min self.now.group_len (length (R.blocks self.now.records.now)) ≤ length window.old) }
        ensures { blocks_of result ≡ take self.now.group_len (drop (self.now.group_len * g) (R.blocks self.now.records.now)) }
    {
        let count = self.grouping().blocks_in(g);
        let first = self.group_len * g;
        for k in 0..count {
            put_block(self.records.block(first + k), window, STRIDE * k);
        }
        AreaGroup {
            area: window,
            stride: STRIDE,
            first: 0,
            count,
        }
    }

    // Plans the groups. Returns how many bytes their bits take. A loop, as in `write`: a sum's closure would hold both areas, and change
    // them. Both go over the groups as `AreaStore` does, whose groups lie in its area already: a trait over both would lend the window
    // mutably for each group, and with its two impls take more lines than the two loops.
    fn plan(&self, window: &mut [u64], kept: &mut [u64]) -> usize
        requires { (block_list_no (R.blocks self.now.records.now) ≡ 0)
            × Rooms self.now.group_len (length (R.blocks self.now.records.now)) window.old kept.old }
        ensures value { result ≡ length (addrs best_slope self.now.group_len
            (group_count self.now.group_len (length (R.blocks self.now.records.now))) (R.blocks self.now.records.now)) }
        ensures planned { StandsAt kept.new 0 (plans best_slope self.now.group_len
            (group_count self.now.group_len (length (R.blocks self.now.records.now))) (R.blocks self.now.records.now)) }
    {
        let groups = self.grouping().group_count();
        let mut bits: usize = 0;
        for g in 0..groups {
            let group = self.hold_group(g, window);
            bits += store_write::plan_group(&group, g, kept);
        }
        bits
    }

    // Writes the store, whose groups are planned and whose bits take so many bytes, from the front of `out` on. Returns its length. Window
    // and plans go apart, since the one is changed here and the other only read.
    fn write(
        &self,
        bits: usize,
        window: &mut [u64],
        kept: &[u64],
        out: &mut [u8],
    ) -> Result<usize, Refusal>
        requires { (block_list_no (R.blocks self.now.records.now) ≡ 0)
            × (3 * min self.now.group_len (length (R.blocks self.now.records.now)) ≤ length window.old)
            × (bits ≡ length (addrs best_slope self.now.group_len
            (group_count self.now.group_len (length (R.blocks self.now.records.now))) (R.blocks self.now.records.now)))
            × StandsAt kept.now 0 (plans best_slope self.now.group_len
            (group_count self.now.group_len (length (R.blocks self.now.records.now))) (R.blocks self.now.records.now)) }
        ensures stored { stored_answer result ≡ slice_stored_by self.now.group_len (R.blocks self.now.records.now) out.old }
        ensures bytes { out.new ≡ slice_out_by self.now.group_len (R.blocks self.now.records.now) out.old }
    {
        let groups = self.grouping().group_count();
        let metas = META_LEN * groups;
        let len = 8 + metas + bits;
        if out.len() < len {
            return Err(Refusal::OutShort);
        }
        serialize::serialize_u64(out, 0, metas as u64);
        let mut offset: usize = 0;
        for g in 0..groups {
            let group = self.hold_group(g, window);
            let place = GroupPlace::new(g, groups, offset);
            offset += store_write::write_group(&group, g, kept, place, out);
        }
        Ok(len)
    }

    // Writes the store of the records from the front of `out` on, with lent areas for a group's records and for the plans. Returns the
    // store's length.
    pub fn serialize(
        &self,
        window: &mut [u64],
        kept: &mut [u64],
        out: &mut [u8],
    ) -> Result<usize, Refusal>
        requires { Rooms self.now.group_len (length (R.blocks self.now.records.now)) window.old kept.old }
        ensures stored { stored_answer result ≡ slice_stored_by self.now.group_len (R.blocks self.now.records.now) out.old }
        ensures bytes { out.new ≡ slice_out_by self.now.group_len (R.blocks self.now.records.now) out.old }
    {
        self.check_rows()?;
        let bits = self.plan(window, kept);
        self.write(bits, window, kept, out)
    }

    // The same with areas of its own, W numbers for a group's records and K for the plans. Their lengths are fixed, since the library
    // has no heap; who has few records chooses small ones, which take less time to clear.
    pub fn serialize_in<const W: usize, const K: usize>(
        &self,
        out: &mut [u8],
    ) -> Result<usize, Refusal>
        requires { (3 * min self.now.group_len (length (R.blocks self.now.records.now)) ≤ W) × (W ≤ 768)
            × (length (R.blocks self.now.records.now) ≤ max_blocks
            → 2 * group_count self.now.group_len (length (R.blocks self.now.records.now)) ≤ K) × (K ≤ 1024) }
        ensures stored { stored_answer result ≡ slice_stored_by self.now.group_len (R.blocks self.now.records.now) out.old }
        ensures bytes { out.new ≡ slice_out_by self.now.group_len (R.blocks self.now.records.now) out.old }
    {
        let mut window = [0u64; W];
        let mut kept = [0u64; K];
        self.serialize(&mut window, &mut kept, out)
    }
}
