// The lookup of a batch with groups of a given length. All entries are there before the first of them is written. What is lent comes
// apart, and the length is a number with its fact, as in index_lookup.
ghost use Rattle.std.specs.Prelude.{◌≡◌, ◌≤◌, length};
ghost use Rattle.std.proofs.lemmas.List.Edits.{sets};
ghost use Rattle.layout.specs.Refusals.{no_of};
ghost use Rattle.store.specs.Facts.{GroupLenOk};
ghost use Rattle.batch.specs.Batch.{LocateWithKeysBy};

use index::SSTableIndexV3;
use index_lookup::OpenedIndex;
use key_list::KeyList;
use layout::MAX_BATCH_KEYS;
use layout::refusals::Refusal;

// Copies the entries to the front of the ids. byte_copy has it for bytes, and counts them; no other crate copies numbers.
fn write(entries: &[u64], ids: &mut [u64])
    requires { length entries.now ≤ length ids.old }
    ensures { ids.new ≡ sets ids.old 0 entries.now }
{
    ids[..entries.len()].copy_from_slice(entries);
}

// Writes the id of the block of each key at the front of `ids`.
pub fn locate_with_keys(
    opened: SSTableIndexV3,
    data: &[u8],
    group_len: usize,
    pairs: &[u64],
    keys: &[u8],
    ids: &mut [u64],
) -> Result<(), Refusal>
    requires { GroupLenOk group_len }
    ensures { LocateWithKeysBy group_len «data».now opened pairs.now keys.now ids.old ids.new (no_of result) }
{
    let index = OpenedIndex::check(opened, data, group_len)?;
    let list = KeyList::new(pairs, keys)?;
    if ids.len() < list.len() {
        return Err(Refusal::KeyListBad);
    }
    // A fixed area, since the library has no heap.
    let mut found = [0u64; MAX_BATCH_KEYS];
    batch_search::find_entries(index.directory(), &list, &mut found)?;
    write(&found[..list.len()], ids);
    Ok(())
}
