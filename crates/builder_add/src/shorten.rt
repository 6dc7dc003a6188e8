// A shortening: its rows, and what it writes where none is hit.
ghost use Rattle.std.specs.Prelude.{◌≡◌, ℕ, ◌≤◌, List, length};
ghost use Rattle.keys.specs.Order.{common_prefix_len};
ghost use Rattle.builder.specs.Rows.{AreaOk};
ghost use Rattle.builder.specs.Area.{view_of};
ghost use Rattle.builder.specs.Calls.{called, handed_back, short_blocks, short_keys, shorten_def};

use builder::SSTableIndexBuilder;
use builder::record::{KEY_LEN, STRIDE, place_at};
use builder_rows::{Areas, check_key};
use layout::refusals::Refusal;

// Shortens the last key in place, and its length in the last record, for every next key with which it has `common` bytes in common.
// The key is lent mutably, so not by `KeyPlace::key`.
#[tactic(auto, unfolding(builder::specs::Area::area_view))]
fn shorten_last(builder: SSTableIndexBuilder, blocks: &mut [u64], keys: &mut [u8], common: usize)
    requires { AreaOk (view_of builder blocks.old keys.old)
        × (common ≤ length (view_of builder blocks.old keys.old).last_key) }
    ensures { (next : List ℕ)
        → common ≡ common_prefix_len (view_of builder blocks.old keys.old).last_key next
        → (blocks.new ≡ short_blocks builder.n blocks.old keys.old next)
        × (keys.new ≡ short_keys builder.n blocks.old keys.old next) }
{
    let Some(last) = builder.n.checked_sub(1) else {
        return;
    };
    let place = place_at(blocks, last);
    let offset = place.offset as usize;
    let key = &mut keys[offset..offset + place.len as usize];
    let shortened = keys::shorter_str_behind(key, common);
    blocks[STRIDE * last + KEY_LEN] = shortened as u64;
}

// The builder as it is, or the row that is hit.
pub fn shorten_last_block_key_given_next_key(
    builder: SSTableIndexBuilder,
    blocks: &mut [u64],
    keys: &mut [u8],
    next_key: &[u8],
) -> Result<SSTableIndexBuilder, Refusal>
    ensures { called (handed_back builder result) blocks.new keys.new
        ≡ shorten_def builder blocks.old keys.old next_key.now }
{
    let areas = Areas::check(builder, blocks, keys)?;
    check_key(next_key)?;
    let common = areas.common_len(next_key);
    if areas.key_bad_behind(next_key, common) {
        return Err(Refusal::KeyBad);
    }
    shorten_last(builder, blocks, keys, common);
    Ok(builder)
}
