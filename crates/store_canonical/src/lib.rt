// Whether a store that keeps its rows is, byte for byte, the one that the writer makes of the blocks read in it.
#![tactic(auto)]

ghost use Rattle.std.specs.Prelude.{◌≡◌, true, false, ◌+◌, ◌*◌, ◌≤◌, min, length};
ghost use Rattle.layout.specs.Layout.{meta_len};
ghost use Rattle.serialize.specs.Digits.{le_val, DigitsBelow};
ghost use Rattle.slope.specs.Slope.{best_slope};
ghost use Rattle.group.specs.Blocks.{blocks_at};
ghost use Rattle.group.specs.Legal.{Legal};
ghost use Rattle.group.specs.Read.{block_read};
ghost use Rattle.store.specs.Store.{group_count};
ghost use Rattle.store.specs.Check.{store_no};
ghost use Rattle.store_canonical.specs.Canonical.{blocks_from, is_store_canonical, GroupCanonical, padding_of};

use group::{BlockAddr, BlockAddrBlockMetadata};
use group_read::Group;
use group_write::AreaGroup;
use layout::META_LEN;
use store_read::BlockAddrStore;

// How many numbers a block takes in the area: numbers and not blocks, since AreaGroup reads the builder's area, which is C's numbers with
// five a block, by the same code.
const STRIDE: usize = 3;

// As many blocks take a small area, so that a short index doesn't clear the large one.
const SMALL_STORE: usize = 16;

// Reads the group's blocks into the front of the area. Each field is read once: a block's end is the start of the next, which a loop
// hands on from turn to turn. Not inlined, so that the loop has the registers.
#[tactic(auto, unfolding(group::specs::Read::range_read, group::specs::Blocks::blocks_at))]
#[inline(never)]
fn read_group(group: &Group, area: &mut [u64])
    requires { 3 * (group.now.meta.block_len + 1) ≤ length area.old }
    ensures { blocks_at area.new 3 0 (group.now.meta.block_len + 1)
        ≡ blocks_from (block_read group.now.meta (le_val group.now.«data».now)) 0 (group.now.meta.block_len + 1) }
{
    // A copy of its own, which writes into the area can't change, so that a turn doesn't read it anew.
    let group = *group;
    let count = usize::from(group.meta.block_len) + 1;
    let mut start = group.meta.range_start;
    for i in 0..count {
        let block = BlockAddr {
            start,
            end: group.range_start(i + 1),
            first_ordinal: group.first_ordinal(i),
        };
        group::area::put_block(block, area, STRIDE * i);
        start = block.end;
    }
}

// The same bytes. Of a parameter it is known that each is below 256, and of a slice in a struct it isn't.
fn bytes(data: &[u8]) -> &[u8]
    ensures { (result.now ≡ «data».now) × DigitsBelow 8 «data».now }
{
    data
}

// The bits that fill the group's last byte, as a number.
fn padding(group: &Group) -> u64
    ensures { (result ≡ padding_of group.now.meta group.now.«data».now) × DigitsBelow 8 group.now.«data».now }
{
    let bits = group
        .meta
        .widths()
        .group_bits(usize::from(group.meta.block_len));
    bitpacker::extract_bits(bytes(group.data), bits, (bits.div_ceil(8) * 8 - bits) as u8)
}

// Whether a group is the one that the writer makes of its blocks, with its bits at `offset`. Fields aren't written anew: with the
// writer's slopes and widths they can only be the writer's, so that of the bits the padding alone is left to look at.
fn group_canonical(group: &Group, offset: u64, area: &mut [u64]) -> bool
    requires { Legal (block_read group.now.meta (le_val group.now.«data».now)) (group.now.meta.block_len + 1)
        × (3 * (group.now.meta.block_len + 1) ≤ length area.old) }
    ensures { (result ≡ true → GroupCanonical best_slope offset group.now.meta group.now.«data».now)
        × (result ≡ false → GroupCanonical best_slope offset group.now.meta group.now.«data».now → ⊥) }
{
    read_group(group, area);
    let blocks = AreaGroup {
        area: &*area,
        stride: STRIDE,
        first: 0,
        count: usize::from(group.meta.block_len) + 1,
    };
    group.meta == blocks.plan_block(offset) && padding(group) == 0
}

// The same of a whole store, with an area of W numbers for a group's blocks, whose length is fixed since the library has no heap. A loop,
// since the closure of `all` would carry the offset on and change the area.
fn groups_canonical<const W: usize>(store: &BlockAddrStore) -> bool
    requires { (length store.now.metas.now ≡ meta_len * group_count store.now.group_len store.now.n)
        × (store_no store.now.group_len store.now.metas.now store.now.addrs.now store.now.n ≡ 0)
        × (3 * min store.now.group_len store.now.n ≤ W) × (W ≤ 768) }
    ensures { result ≡ is_store_canonical best_slope store.now.group_len store.now.metas.now store.now.addrs.now store.now.n }
{
    let mut area = [0u64; W];
    let metas = bytes(store.metas);
    let mut offset: usize = 0;
    for g in 0..store.group_count() {
        let meta = BlockAddrBlockMetadata::deserialize(metas, META_LEN * g);
        let group = store.group_of(meta);
        if !group_canonical(&group, offset as u64, &mut area) {
            return false;
        }
        offset += meta.addr_len();
    }
    offset == store.addrs.len()
}

// Whether group records and address bytes are those that the writer makes of the blocks read in them.
pub fn store_canonical(store: &BlockAddrStore) -> bool
    requires { (length store.now.metas.now ≡ meta_len * group_count store.now.group_len store.now.n)
        × (store_no store.now.group_len store.now.metas.now store.now.addrs.now store.now.n ≡ 0) }
    ensures { result ≡ is_store_canonical best_slope store.now.group_len store.now.metas.now store.now.addrs.now store.now.n }
{
    if store.n <= SMALL_STORE {
        groups_canonical::<48>(store)
    } else {
        groups_canonical::<768>(store)
    }
}
