// Reading a store: by id and by ordinal.
#![tactic(auto)]

ghost use Rattle.std.specs.Prelude.{◌≡◌, true, false, ◌||◌, ◌+◌, ◌*◌, ◌≤◌, ◌<◌, leb, length, drop, MatchOption};
ghost use Rattle.layout.specs.Layout.{max_group_len};
ghost use Rattle.group.specs.Legal.{limit};
ghost use Rattle.group.specs.Read.{group_bad};
ghost use Rattle.group.specs.Facts.{Readable};
ghost use Rattle.store.specs.Store.{group_count};
ghost use Rattle.store.specs.Read.{group_meta, len_of_group, meta_bad, block_or, store_get, store_block, StoreOk, OrdFoundIn, OrdFoundAs};
ghost use Rattle.store.specs.Facts.{GroupLenOk, GroupRecordsOk};

use group::{BlockAddr, BlockAddrBlockMetadata};
use group_read::Group;
use layout::META_LEN;
use layout::refusals::Refusal;
use store::Located;
use store::grouping::Grouping;

// The place of the first ordinal in a group record.
const FIRST_ORDINAL: usize = 16;

// Whether a group can't be read.
#[tactic(auto, unfolding(group::specs::Legal::limit))]
fn meta_bad(meta: BlockAddrBlockMetadata, count: usize, addr_len: usize) -> bool
    requires { count ≤ max_group_len }
    ensures { result ≡ (group_bad meta count addr_len || (leb limit meta.range_start || leb limit meta.first_ordinal)) }
{
    group_read::group_bad(meta, count, addr_len) || meta.first_values_bad()
}

// A store of n blocks in groups of `group_len`: its group records, and its address bytes.
#[derive(Clone, Copy)]
pub struct BlockAddrStore<'a> {
    pub metas: &'a [u8],
    pub addrs: &'a [u8],
    pub n: usize,
    pub group_len: usize,
    pub ghost len: { GroupLenOk group_len },
    pub ghost records: { GroupRecordsOk group_len metas.now n },
}

impl<'a> BlockAddrStore<'a> {
    #[inline(always)]
    fn grouping(&self) -> Grouping
        ensures { (result.n ≡ self.now.n) × (result.group_len ≡ self.now.group_len) }
    {
        Grouping {
            n: self.n,
            group_len: self.group_len,
        }
    }

    // How many groups its blocks make.
    #[inline(always)]
    pub fn group_count(&self) -> usize
        ensures { result ≡ group_count self.now.group_len self.now.n }
    {
        self.grouping().group_count()
    }

    // How many blocks group g has.
    #[inline(always)]
    pub fn blocks_in(&self, g: usize) -> usize
        requires { self.now.group_len * g ≤ self.now.n }
        ensures { result ≡ len_of_group self.now.group_len self.now.n g }
    {
        self.grouping().blocks_in(g)
    }

    // The group of a record that keeps its rule: its bits are in the address bytes from the record's offset on.
    #[inline(always)]
    pub fn group_of(&self, meta: BlockAddrBlockMetadata) -> Group<'a>
        requires { (meta.offset ≤ length self.now.addrs.now) × Readable meta (length (drop meta.offset self.now.addrs.now)) }
        ensures { (result.meta ≡ meta) × (result.«data».now ≡ drop meta.offset self.now.addrs.now) }
    {
        let offset = meta.offset as usize;
        Group {
            meta,
            data: &self.addrs[offset..],
        }
    }

    // Group g, where it can be read.
    #[tactic(auto, unfolding(store::specs::Read::meta_bad, group::specs::Read::first_values_bad))]
    #[inline(always)]
    fn group(&self, g: usize) -> Option<Group<'a>>
        requires { g < group_count self.now.group_len self.now.n }
        ensures { MatchOption result
            (meta_bad self.now.group_len self.now.metas.now self.now.addrs.now self.now.n g ≡ true)
            (λ group. (meta_bad self.now.group_len self.now.metas.now self.now.addrs.now self.now.n g ≡ false)
            × (group.meta ≡ group_meta self.now.metas.now g)
            × (group.meta.block_len + 1 ≡ len_of_group self.now.group_len self.now.n g)
            × (group.«data».now ≡ drop (group_meta self.now.metas.now g).offset self.now.addrs.now)) }
    {
        let meta = BlockAddrBlockMetadata::deserialize(self.metas, META_LEN * g);
        let count = self.blocks_in(g);
        if meta_bad(meta, count, self.addrs.len()) {
            return None;
        }
        Some(self.group_of(meta))
    }

    // Block `block_id`; where its group can't be read, one whose numbers break row 3. A plain block comes back in less time than an
    // enum around it. A match: map_or would put the plain block before the case that is meant, and be as long.
    #[tactic(auto, unfolding(store::specs::Read::block_or, store::specs::Read::store_block))]
    #[inline(always)]
    pub fn block(&self, block_id: usize) -> BlockAddr
        requires { block_id < self.now.n }
        ensures { result ≡ block_or self.now.group_len self.now.metas.now self.now.addrs.now self.now.n block_id }
    {
        match self.group(block_id / self.group_len) {
            Some(group) => group.block(block_id % self.group_len),
            None => BlockAddr {
                start: 1,
                end: 0,
                first_ordinal: 0,
            },
        }
    }

    // `BlockAddrStore::get`, the reference by id: block `block_id`, or that it can't be read. The index takes `block` and tests row 3
    // itself, so this isn't a second reading but the same answer as an Option.
    #[tactic(auto, unfolding(store::specs::Read::store_get, store::specs::Read::block_or, group::specs::Rows::are_numbers_bad))]
    pub fn get(&self, block_id: usize) -> Option<BlockAddr>
        requires { block_id < self.now.n }
        ensures { result ≡ store_get self.now.group_len self.now.metas.now self.now.addrs.now self.now.n block_id }
    {
        let block = self.block(block_id);
        (!block.numbers_bad()).then_some(block)
    }

    // The last group whose first ordinal is at or below `ord`, if ordinals rise and the first group's is.
    #[tactic(auto, unfolding(group::specs::Meta::metadata_at))]
    #[inline(always)]
    fn bisect_groups(&self, ord: u64) -> usize
        ensures there { result < group_count self.now.group_len self.now.n }
        ensures low { 0 < result → (group_meta self.now.metas.now result).first_ordinal ≤ ord }
        ensures high { result + 1 < group_count self.now.group_len self.now.n
            → ord < (group_meta self.now.metas.now (result + 1)).first_ordinal }
    {
        group_read::last_where(self.group_count(), |g| {
            serialize::deserialize_u64(self.metas, META_LEN * g + FIRST_ORDINAL) <= ord
        })
    }

    // The first ordinal of the first group.
    #[tactic(auto, unfolding(group::specs::Meta::metadata_at))]
    #[inline(always)]
    pub fn first_ordinal(&self) -> u64
        ensures { result ≡ (group_meta self.now.metas.now 0).first_ordinal }
    {
        serialize::deserialize_u64(self.metas, FIRST_ORDINAL)
    }

    // The last block whose first ordinal is at or below `ord`.
    #[tactic(auto, unfolding(store::specs::Read::OrdFoundIn, store::specs::Read::OrdFoundAs))]
    #[inline(always)]
    pub fn binary_search_ord(&self, ord: u64) -> Result<Located, Refusal>
        ensures ord_found_in { OrdFoundIn self.now.n (group_meta self.now.metas.now 0).first_ordinal ord result }
        ensures ord_found_as { StoreOk self.now.group_len self.now.metas.now self.now.addrs.now self.now.n
            → OrdFoundAs (store_block self.now.group_len self.now.metas.now self.now.addrs.now) self.now.n ord result }
    {
        let g = self.bisect_groups(ord);
        // One number of both, since the search below has few registers to spare.
        let first = self.group_len * g;
        let group = self.group(g).ok_or(Refusal::Unfit)?;
        if group.meta.first_ordinal > ord {
            return Err(Refusal::OrdinalBelow);
        }
        let inner = group.bisect_for_ord(ord);
        let addr = group.deserialize_block_addr(inner);
        if addr.numbers_bad() {
            return Err(Refusal::Unfit);
        }
        Ok(Located {
            block_id: first + inner,
            addr,
        })
    }
}
