// Rows 1 and 8: what a finish asks of the areas.
#![tactic(auto)]

ghost use Rattle.std.specs.Prelude.{◌≡◌, ◌+◌, ◌*◌, ◌<◌, ◌≤◌, ◌||◌, not, eqb, true, false, length, IfOk, MatchOption};
ghost use Rattle.layout.specs.Refusals.{no_of};
ghost use Rattle.layout.specs.Layout.{max_blocks};
ghost use Rattle.builder.specs.View.{stride};
ghost use Rattle.builder.specs.Rows.{AreaOk, record_bad};
ghost use Rattle.builder.specs.Area.{area_view, area_place};
ghost use Rattle.builder.specs.Finish.{rule_bad, places_bad, rules_bad, list_no};

use builder::SSTableIndexBuilder;
use builder::record::{STRIDE, place_at};
use builder_rows::{Areas, record_bad};
use group::area::block_at;
use layout::refusals::Refusal;

// Areas that hit neither row 1 nor row 8.
#[derive(Clone, Copy)]
pub struct CheckedList<'a> {
    pub areas: Areas<'a>,
    ghost checked: { list_no areas.builder areas.blocks.now areas.keys.now ≡ 0 },
}

// Whether some key doesn't start where the one before it ends, or its record breaks row 1's rule.
#[tactic(auto, unfolding(builder::specs::Area::area_view))]
fn places_bad(areas: &Areas) -> bool
    ensures { result ≡ places_bad areas.now.builder.n areas.now.blocks.now areas.now.keys.now }
{
    let (blocks, keys) = (areas.blocks, areas.keys);
    (0..areas.builder.n)
        .try_fold(
            0,
            |next: u64, i: usize|
                requires { (i < max_blocks) × (stride * i + stride ≤ length blocks.now) }
            {
                let place = place_at(blocks, i);
                if place.offset != next || record_bad(i, blocks, keys) {
                    return None;
                }
                Some(next + place.len)
            },
        )
        .is_none()
}

// Whether block i breaks rows 2 to 6 after the i blocks before it.
#[tactic(auto, unfolding(builder::specs::Area::area_view))]
fn rule_bad(i: usize, blocks: &[u64], keys: &[u8]) -> bool
    requires { AreaOk (area_view i blocks.now keys.now) × AreaOk (area_view (i + 1) blocks.now keys.now) }
    ensures { result ≡ rule_bad i blocks.now keys.now }
{
    let block = block_at(blocks, STRIDE * i);
    let key = place_at(blocks, i).key(keys);
    let before = Areas {
        builder: SSTableIndexBuilder::new(i),
        blocks,
        keys,
    };
    before.check_block(key, key, block).is_err()
}

// Whether some block breaks rows 2 to 6.
fn rules_bad(areas: &Areas) -> bool
    requires { places_bad areas.now.builder.n areas.now.blocks.now areas.now.keys.now ≡ false }
    ensures { result ≡ rules_bad areas.now.builder.n areas.now.blocks.now areas.now.keys.now }
{
    (0..areas.builder.n).any(|m| rule_bad(m, areas.blocks, areas.keys))
}

// Row 8.
fn check_list(areas: &Areas) -> Result<(), Refusal>
    ensures { no_of result ≡ list_no areas.now.builder areas.now.blocks.now areas.now.keys.now }
{
    if places_bad(areas) || rules_bad(areas) {
        return Err(Refusal::ListBad);
    }
    Ok(())
}

impl<'a> CheckedList<'a> {
    // The list, or row 1 or 8.
    pub fn check(
        builder: SSTableIndexBuilder,
        blocks: &'a [u64],
        keys: &'a [u8],
    ) -> Result<CheckedList<'a>, Refusal>
        ensures rows_1_and_8 { no_of result ≡ list_no builder blocks.now keys.now }
        ensures same { IfOk result (λ list. (list.areas.builder ≡ builder)
            × (list.areas.blocks.now ≡ blocks.now) × (list.areas.keys.now ≡ keys.now)) }
    {
        let areas = Areas::check(builder, blocks, keys)?;
        check_list(&areas)?;
        Ok(CheckedList { areas })
    }
}
