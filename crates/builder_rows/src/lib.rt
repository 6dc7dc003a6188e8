// Rows 1 to 7 of the table.
#![tactic(auto)]

ghost use Rattle.std.specs.Prelude.{◌≡◌, ◌+◌, ◌-◌, ◌*◌, ◌≤◌, ◌<◌, cond, length, IfOk, MatchOption};
ghost use Rattle.layout.specs.Layout.{max_blocks};
ghost use Rattle.layout.specs.Refusals.{no_of};
ghost use Rattle.keys.specs.Order.{common_prefix_len};
ghost use Rattle.builder.specs.View.{stride};
ghost use Rattle.builder.specs.Rows.{record_bad, area_bad, AreaOk, key_no, key_bad, room_bad, block_no, add_no};
ghost use Rattle.builder.specs.Area.{area_place, view_of};

use builder::SSTableIndexBuilder;
use builder::record::{KeyPlace, STRIDE, place_at};
use group::BlockAddr;
use group::area::block_at;
use layout::refusals::Refusal;
use layout::{MAX_BLOCKS, MAX_KEY_LEN, ends_beyond};

// A builder with the areas lent to it, which don't hit row 1. Functions that are to make one, here and in other crates, take the three
// apart, as C hands them.
#[derive(Clone, Copy)]
pub struct Areas<'a> {
    pub builder: SSTableIndexBuilder,
    pub blocks: &'a [u64],
    pub keys: &'a [u8],
    ghost in_order: { AreaOk (view_of builder blocks.now keys.now) },
}

// Whether the key of record i ends beyond the key area.
#[tactic(auto, unfolding(builder::specs::Rows::record_bad))]
pub fn record_bad(i: usize, blocks: &[u64], keys: &[u8]) -> bool
    requires { (i < max_blocks) × (stride * i + stride ≤ length blocks.now) }
    ensures { result ≡ record_bad (length keys.now) (area_place blocks.now i) }
{
    let place = place_at(blocks, i);
    ends_beyond(place.offset, place.len, keys.len() as u64)
}

// Row 1: whether the builder's count and its last record don't fit the areas.
pub fn area_bad(builder: SSTableIndexBuilder, blocks: &[u64], keys: &[u8]) -> bool
    ensures { result ≡ area_bad (view_of builder blocks.now keys.now) }
{
    let n = builder.n;
    n > MAX_BLOCKS || STRIDE * n > blocks.len() || (n > 0 && record_bad(n - 1, blocks, keys))
}

// The rows on a key alone.
pub fn check_key(key: &[u8]) -> Result<(), Refusal>
    ensures { no_of result ≡ key_no key.now }
{
    if key.len() > MAX_KEY_LEN {
        return Err(Refusal::KeyLong);
    }
    Ok(())
}

impl<'a> Areas<'a> {
    ghost use Rattle.builder_rows.specs.Shown.{shown};

    // The areas, or row 1.
    pub fn check(
        builder: SSTableIndexBuilder,
        blocks: &'a [u64],
        keys: &'a [u8],
    ) -> Result<Areas<'a>, Refusal>
        ensures row_1 { no_of result ≡ cond (area_bad (view_of builder blocks.now keys.now)) 1 0 }
        ensures same { IfOk result (λ areas. (areas.builder ≡ builder) × (areas.blocks.now ≡ blocks.now) × (areas.keys.now ≡ keys.now)) }
    {
        if area_bad(builder, blocks, keys) {
            return Err(Refusal::AreaBad);
        }
        Ok(Areas {
            builder,
            blocks,
            keys,
        })
    }

    // Where the last block's key stands, if there is a block.
    #[tactic(auto, unfolding(builder::specs::Area::area_view))]
    fn last_place(&self) -> Option<KeyPlace>
        ensures { MatchOption result ((shown self.now).n ≡ 0)
            (λ place. (0 < (shown self.now).n) × (place ≡ (shown self.now).place)
            × (place.offset + place.len ≤ length self.now.keys.now)) }
    {
        let last = self.builder.n.checked_sub(1)?;
        Some(place_at(self.blocks, last))
    }

    // Where the next key goes.
    #[tactic(auto, unfolding(builder::specs::Area::area_view))]
    pub fn next_key(&self) -> usize
        ensures { result ≡ (shown self.now).next_key }
    {
        self.last_place()
            .map_or(0, |place| place.offset as usize + place.len as usize)
    }

    // The last separator, if there is a block.
    #[tactic(auto, unfolding(builder::specs::Area::area_view))]
    fn last_key(&self) -> Option<&'a [u8]>
        ensures { MatchOption result ((shown self.now).n ≡ 0)
            (λ key. (0 < (shown self.now).n) × (key.now ≡ (shown self.now).last_key)) }
    {
        Some(self.last_place()?.key(self.keys))
    }

    // How many bytes the last separator and a key have in common.
    pub fn common_len(&self, key: &[u8]) -> usize
        ensures { result ≡ common_prefix_len (shown self.now).last_key key.now }
    {
        self.last_key()
            .map_or(0, |last| keys::common_prefix_len(last, key))
    }

    // Row 6, where the last separator and the key have `common` bytes in common.
    pub fn key_bad_behind(&self, key: &[u8], common: usize) -> bool
        requires { common ≡ common_prefix_len (shown self.now).last_key key.now }
        ensures { result ≡ key_bad (shown self.now) key.now }
    {
        self.last_key()
            .is_some_and(|last| !keys::lt_behind(last, key, common))
    }

    // Row 6: whether a key isn't above the last separator. By runs: a finish asks it of every block, and long keys may share much.
    fn key_bad(&self, key: &[u8]) -> bool
        ensures { result ≡ key_bad (shown self.now) key.now }
    {
        let common = self
            .last_key()
            .map_or(0, |last| keys::common_prefix_len_by_runs(last, key, 0));
        self.key_bad_behind(key, common)
    }

    // The block before the next one, if there is one.
    #[tactic(auto, unfolding(builder::specs::Area::area_view))]
    fn last_block(&self) -> Option<BlockAddr>
        ensures { MatchOption result ((shown self.now).n ≡ 0) (λ last. (0 < (shown self.now).n) × (last ≡ (shown self.now).last)) }
    {
        let last = self.builder.n.checked_sub(1)?;
        Some(block_at(self.blocks, STRIDE * last))
    }

    // Rows 2 to 6 for a block after the builder's blocks, with its key as given and its separator: two keys, as the rows have them, row 2
    // of the one given and row 6 of the separator.
    pub fn check_block(&self, given: &[u8], key: &[u8], block: BlockAddr) -> Result<(), Refusal>
        ensures { no_of result ≡ block_no (shown self.now) given.now key.now block }
    {
        check_key(given)?;
        if block.numbers_bad() {
            return Err(Refusal::NumbersBad);
        }
        if let Some(last) = self.last_block() {
            if block.join_bad(last) {
                return Err(Refusal::JoinBad);
            }
            if block.ordinal_bad(last) {
                return Err(Refusal::OrdinalBad);
            }
        }
        if self.key_bad(key) {
            return Err(Refusal::KeyBad);
        }
        Ok(())
    }

    // Row 7: whether there is no room for a block.
    #[tactic(auto, unfolding(builder::specs::Area::area_view))]
    fn room_bad(&self, key: &[u8]) -> bool
        ensures { result ≡ room_bad (shown self.now) key.now }
    {
        let n = self.builder.n;
        n == MAX_BLOCKS
            || self.blocks.len() < STRIDE * n + STRIDE
            || self.keys.len() - self.next_key() < key.len()
    }

    // Rows 2 to 7 for an add.
    pub fn check_add(&self, key: &[u8], block: BlockAddr) -> Result<(), Refusal>
        ensures { no_of result ≡ add_no (shown self.now) key.now block }
    {
        self.check_block(key, key, block)?;
        if self.room_bad(key) {
            return Err(Refusal::RoomBad);
        }
        Ok(())
    }
}
