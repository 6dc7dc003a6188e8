// The index of a checked list: planned, then written.
ghost use Rattle.std.specs.Prelude.{◌≡◌, ◌+◌, ◌*◌, ◌≤◌, ◌<◌, length};
ghost use Rattle.std.proofs.lemmas.List.Edits.{sets};
ghost use Rattle.directory_write.specs.Records.{record_keys};
ghost use Rattle.store.specs.Facts.{GroupLenOk};
ghost use Rattle.store.specs.Store.{group_count};
ghost use Rattle.store.specs.Plans.{StandsAt};
ghost use Rattle.builder.specs.View.{stride};
ghost use Rattle.builder.specs.Index.{settings_of};
ghost use Rattle.builder.specs.Finish.{area_keys, area_index, area_directory, area_plans};
ghost use Rattle.builder.specs.Calls.{handed_back};
ghost use Rattle.builder.specs.Finish.{finish_of, finish_def};

use builder::Written;
use builder::record::{KEY_OFFSET, STRIDE};
use builder_list::CheckedList;
use directory_write::KeyRecords;
use layout::refusals::Refusal;
use store_write::AreaStore;

// List and length go apart here and below: what `write_index` writes is promised for any length, while a finish has one, which a type of
// both would only carry along.

// The list's keys, as the directory's writers take them.
fn key_records<'a>(list: &CheckedList<'a>) -> KeyRecords<'a>
    ensures { record_keys result ≡ area_keys list.now.areas.builder list.now.areas.blocks.now list.now.areas.keys.now }
{
    KeyRecords {
        area: list.areas.blocks,
        stride: STRIDE,
        field: KEY_OFFSET,
        keys: list.areas.keys,
        n: list.areas.builder.n,
    }
}

// The list's blocks in groups of `group_len`, as the store's writers take them.
fn area_store<'a>(list: &CheckedList<'a>, group_len: usize) -> AreaStore<'a>
    requires { GroupLenOk group_len }
    ensures { (result.area.now ≡ list.now.areas.blocks.now) × (result.stride ≡ stride)
        × (result.n ≡ list.now.areas.builder.n) × (result.group_len ≡ group_len) }
{
    AreaStore {
        area: list.areas.blocks,
        stride: STRIDE,
        n: list.areas.builder.n,
        group_len,
    }
}

// Plans the store of the areas. Returns how many bytes the index takes; none with 0 or 1 blocks.
pub fn plan_index(list: &CheckedList, group_len: usize, kept: &mut [u64]) -> usize
    requires { GroupLenOk group_len × (2 * group_count group_len list.now.areas.builder.n ≤ length kept.old) }
    ensures value { result
        ≡ length (area_index (settings_of group_len) list.now.areas.builder list.now.areas.blocks.now list.now.areas.keys.now) }
    ensures stands_at { 2 ≤ list.now.areas.builder.n → StandsAt kept.new 0
        (area_plans (settings_of group_len) list.now.areas.builder list.now.areas.blocks.now) }
{
    let n = list.areas.builder.n;
    if n < 2 {
        return 0;
    }
    let directory = key_records(list).directory_len();
    directory + area_store(list, group_len).plan(kept) + 8
}

// Writes the index, which was planned, from the front of `out` on: directory, store, directory length. Returns the directory's length.
pub fn write_index(list: &CheckedList, group_len: usize, kept: &[u64], out: &mut [u8]) -> usize
    requires { (2 ≤ list.now.areas.builder.n) × GroupLenOk group_len
        × StandsAt kept.now 0 (area_plans (settings_of group_len) list.now.areas.builder list.now.areas.blocks.now)
        × (length (area_index (settings_of group_len) list.now.areas.builder list.now.areas.blocks.now list.now.areas.keys.now)
        ≤ length out.old) }
    ensures directory { result ≡ length (area_directory list.now.areas.builder list.now.areas.blocks.now list.now.areas.keys.now) }
    ensures written { out.new
        ≡ sets out.old 0 (area_index (settings_of group_len) list.now.areas.builder list.now.areas.blocks.now list.now.areas.keys.now) }
{
    let directory = key_records(list).serialize(out);
    let store = area_store(list, group_len).serialize(kept, &mut out[directory..]);
    serialize::serialize_u64(out, directory + store, directory as u64);
    directory
}

// How many bytes the index takes, with an area of K numbers for the plans. Its length is fixed here and below, since the library has no
// heap; who has few blocks chooses a small one, which takes less time to clear.
pub fn index_len<const K: usize>(list: &CheckedList, group_len: usize) -> usize
    requires { GroupLenOk group_len × (2 * group_count group_len list.now.areas.builder.n ≤ K) × (K ≤ 1024) }
    ensures { result
        ≡ length (area_index (settings_of group_len) list.now.areas.builder list.now.areas.blocks.now list.now.areas.keys.now) }
{
    let mut kept = [0u64; K];
    plan_index(list, group_len, &mut kept)
}

// Finishes a list, with such an area.
pub fn finish_with<const K: usize>(
    list: &CheckedList,
    group_len: usize,
    out: &mut [u8],
) -> Result<Written, Refusal>
    requires { GroupLenOk group_len × (2 * group_count group_len list.now.areas.builder.n ≤ K) × (K ≤ 1024) }
    ensures { finish_of (handed_back list.now.areas.builder result) out.new
        ≡ finish_def (settings_of group_len) list.now.areas.builder list.now.areas.blocks.now list.now.areas.keys.now out.old }
{
    let builder = list.areas.builder;
    let mut kept = [0u64; K];
    let total = plan_index(list, group_len, &mut kept);
    if out.len() < total {
        return Err(Refusal::OutShort);
    }
    if builder.n < 2 {
        return Ok(Written {
            builder,
            total: 0,
            directory_len: 0,
        });
    }
    let directory_len = write_index(list, group_len, &kept, out);
    Ok(Written {
        builder,
        total,
        directory_len,
    })
}
