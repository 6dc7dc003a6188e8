// The blocks of a list of keys in one directory: one search after the other, or all side by side.
#![tactic(auto)]

pub mod lanes;

ghost use Rattle.std.specs.Prelude.{◌≡◌, ◌≤◌, cond, length};
ghost use Rattle.layout.specs.Layout.{max_batch_keys};
ghost use Rattle.layout.specs.Refusals.{no_of};
ghost use Rattle.batch_search.specs.Entries.{EntriesFound, ended};

use directory_read::Directory;
use key_list::KeyList;
use layout::MAX_BATCH_KEYS;
use layout::refusals::Refusal;

// The entry of a key that is above the last separator: a number, since C has the entries in an array of numbers.
pub const NO_ID: u64 = u64::MAX;

// From as many keys and as many blocks on searches side by side are faster than one after the other.
const SOME_KEYS: usize = 8;

const SOME_BLOCKS: usize = 4_096;

// One search after the other. By place: a list gives its keys by number.
fn one_by_one(
    directory: Directory,
    list: &KeyList,
    found: &mut [u64; MAX_BATCH_KEYS],
) -> Result<(), Refusal>
    ensures entries { EntriesFound directory.entry.bytes.now directory.entry.n list.now.pairs.now list.now.keys.now
        found.new (ended result) }
    ensures number { no_of result ≡ cond (ended result) 0 20 }
{
    for i in 0..list.len() {
        let key = list.nth(i);
        found[i] = match directory.locate_with_key(key) {
            Ok(id) => id as u64,
            Err(Refusal::Unfit) => return Err(Refusal::Unfit),
            Err(_) => NO_ID,
        };
    }
    Ok(())
}

// Puts the entry of each key into `found`; refused where a search meets a key outside the directory.
pub fn find_entries(
    directory: Directory,
    list: &KeyList,
    found: &mut [u64; MAX_BATCH_KEYS],
) -> Result<(), Refusal>
    ensures entries { EntriesFound directory.entry.bytes.now directory.entry.n list.now.pairs.now list.now.keys.now
        found.new (ended result) }
    ensures number { no_of result ≡ cond (ended result) 0 20 }
{
    if directory.n < SOME_BLOCKS || list.len() < SOME_KEYS {
        return one_by_one(directory, list, found);
    }
    lanes::side_by_side(directory, list, found)
}
