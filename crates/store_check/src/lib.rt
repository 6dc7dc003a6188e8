// Rows 15 and 16 over a whole store.
#![tactic(auto)]

ghost use Rattle.std.specs.Prelude.{◌≡◌, ℕ, ◌<◌, false, not, ◌||◌, cond, ◌+◌, ◌-◌, ◌≤◌, eqb, leb, length, Some, None, MatchOption, IfOk};
ghost use Rattle.layout.specs.Refusals.{no_of};
ghost use Rattle.serialize.specs.Digits.{le_val};
ghost use Rattle.group.specs.Legal.{limit};
ghost use Rattle.group.specs.Read.{range_read, ordinal_read, block_read};
ghost use Rattle.store.specs.Store.{group_count};
ghost use Rattle.store.specs.Read.{store_block};
ghost use Rattle.store.specs.Check.{groups_bad, firsts_bad, blocks_bad, store_no};

use group::{BlockAddr, BlockAddrBlockMetadata};
use group_read::{BlockStartAddr, Group};
use layout::META_LEN;
use layout::refusals::Refusal;
use store_read::BlockAddrStore;

// Row 15: whether one of the groups breaks its rule.
#[tactic(auto, unfolding(store::specs::Check::groups_bad))]
fn groups_bad(store: &BlockAddrStore) -> bool
    ensures { result ≡ groups_bad store.now.group_len store.now.metas.now store.now.addrs.now store.now.n
        (group_count store.now.group_len store.now.n) }
{
    (0..store.group_count()).any(|g| {
        let meta = BlockAddrBlockMetadata::deserialize(store.metas, META_LEN * g);
        group_read::group_bad(meta, store.blocks_in(g), store.addrs.len())
    })
}

// Whether a group's first values are outside row 16's range or, behind another group, break 4 or 5 after its last block. By the record's
// fields: the first block's end, which `join_bad` and `ordinal_bad` would want with it, isn't read yet.
#[tactic(auto, unfolding(group::specs::Read::first_values_bad))]
fn first_bad(meta: BlockAddrBlockMetadata, before: Option<BlockAddr>) -> bool
    ensures { MatchOption before (result ≡ (leb limit meta.range_start || leb limit meta.first_ordinal))
        (λ last. result ≡ ((leb limit meta.range_start || leb limit meta.first_ordinal)
        || (not (eqb meta.range_start last.end) || leb meta.first_ordinal last.first_ordinal))) }
{
    meta.first_values_bad()
        || before.is_some_and(|last| meta.range_start != last.end
            || meta.first_ordinal <= last.first_ordinal)
}

// The last block of a group whose blocks keep rows 3 to 5, where `block_start` reads block i's start and ordinal. Each field is read
// once: a block's end is the start of the next, and as starts and ordinals don't fall, only the last are held to the limit. A loop: the
// closure of a try_fold would call the closure given, and so need clauses of its own that repeat when that may be called.
#[tactic(auto, unfolding(group::specs::Read::range_read, group::specs::Read::ordinal_read))]
fn last_block_by<F: Fn(usize) -> BlockStartAddr>(group: &Group, block_start: F) -> Option<BlockAddr>
    requires may { (i : ℕ) → 0 < i → i ≤ group.now.meta.block_len → F.pre block_start i }
    requires reads { (i : ℕ) (r : BlockStartAddr) → F.post block_start i r
        → (r.range_start ≡ range_read group.now.meta (le_val group.now.«data».now) i)
        × (r.first_ordinal ≡ ordinal_read group.now.meta (le_val group.now.«data».now) i) }
    ensures { result ≡ cond (blocks_bad (block_read group.now.meta (le_val group.now.«data».now)) (group.now.meta.block_len + 1)) None
        (Some (block_read group.now.meta (le_val group.now.«data».now) group.now.meta.block_len)) }
{
    let last = usize::from(group.meta.block_len);
    let mut start = group.meta.range_start;
    let mut first_ordinal = group.meta.first_ordinal;
    for i in 1..last + 1 {
        let next = block_start(i);
        if next.range_start < start {
            return None;
        }
        if next.first_ordinal <= first_ordinal {
            return None;
        }
        start = next.range_start;
        first_ordinal = next.first_ordinal;
    }
    let end = group.range_start(last + 1);
    let block = BlockAddr {
        start,
        end,
        first_ordinal,
    };
    if block.numbers_bad() {
        return None;
    }
    Some(block)
}

// The last block of a group, or that one of its blocks breaks rows 3 to 5. Not inlined, so that its loops have the registers.
#[inline(never)]
fn last_block(group: &Group) -> Option<BlockAddr>
    ensures { result ≡ cond (blocks_bad (block_read group.now.meta (le_val group.now.«data».now)) (group.now.meta.block_len + 1)) None
        (Some (block_read group.now.meta (le_val group.now.«data».now) group.now.meta.block_len)) }
{
    // Two loops come of it, so that the compiler keeps the one small where one read gives both fields of a block.
    if group.meta.range_start_nbits + group.meta.first_ordinal_nbits <= 56 {
        last_block_by(group, |i| group.block_start(i))
    } else {
        last_block_by(
            group,
            |i| BlockStartAddr {
                range_start: group.range_start(i),
                first_ordinal: group.first_ordinal(i),
            },
        )
    }
}

// Row 16: the last block of all; none where a first value is outside the range, or a block breaks 3, 4 or 5. A loop: as a try_fold it
// would hand on an Option, the block before if there is one, inside the Option that says whether a row is hit.
fn last_of_all(store: &BlockAddrStore) -> Option<BlockAddr>
    requires { groups_bad store.now.group_len store.now.metas.now store.now.addrs.now store.now.n
        (group_count store.now.group_len store.now.n) ≡ false }
    ensures { result ≡ cond (firsts_bad store.now.metas.now (group_count store.now.group_len store.now.n) || blocks_bad
        (store_block store.now.group_len store.now.metas.now store.now.addrs.now) store.now.n) None
        (Some (store_block store.now.group_len store.now.metas.now store.now.addrs.now (store.now.n - 1))) }
{
    let mut before = None;
    for g in 0..store.group_count() {
        let meta = BlockAddrBlockMetadata::deserialize(store.metas, META_LEN * g);
        if first_bad(meta, before) {
            return None;
        }
        let group = store.group_of(meta);
        let Some(last) = last_block(&group) else {
            return None;
        };
        before = Some(last);
    }
    before
}

// Rows 15 and 16: 15 over all groups, then 16 over all blocks. Row 16 reads the last block anyway, so its first ordinal comes back.
#[tactic(auto, unfolding(store::specs::Check::store_no))]
pub fn check(store: &BlockAddrStore) -> Result<u64, Refusal>
    ensures number { no_of result ≡ store_no store.now.group_len store.now.metas.now store.now.addrs.now store.now.n }
    ensures value { IfOk result (λ last. last
        ≡ (store_block store.now.group_len store.now.metas.now store.now.addrs.now (store.now.n - 1)).first_ordinal) }
{
    if groups_bad(store) {
        return Err(Refusal::GroupBad);
    }
    let last = last_of_all(store).ok_or(Refusal::BlockBad)?;
    Ok(last.first_ordinal)
}
