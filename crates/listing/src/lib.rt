// The blocks that can hold a key of a pattern: `get_block_for_automaton` of src/index/v3.rs.
#![tactic(auto)]

ghost use Rattle.std.specs.Prelude.{◌≡◌, true, false, cond, ◌≤◌, ◌<◌, length, set};
ghost use Rattle.keys.specs.Order.{common_prefix_len};
ghost use Rattle.automaton_live.specs.Prepared.{IsPrepared};
ghost use Rattle.pruning.specs.Interval.{MatchBetween};
ghost use Rattle.directory.specs.Read.{key_of};
ghost use Rattle.listing.specs.Listing.{keys_outside, Listing, GetBlockForAutomaton, listed_no, listed_count};
ghost use Rattle.listing_follow.specs.Followed.{IsTrail, Turned};

use automaton::table::Table;
use automaton_live::Prepared;
use directory_read::Directory;
use index::SSTableIndexV3;
use index_lookup::OpenedIndex;
use layout::refusals::Refusal;
use listing_follow::Trail;
use pruning_match::{can_block_match, can_block_match_from};

// Whether one of the keys or its pair lies outside the directory.
fn keys_outside(directory: Directory) -> bool
    ensures { result ≡ keys_outside directory.entry.bytes.now directory.entry.n directory.entry.n }
{
    (0..directory.n).any(|i| directory.key_outside(i))
}

// Whether a state behind bytes that the keys share can't match: then no key between them matches. Here and below start and end stay
// two: they are neighbours in the directory, and a trail is of the one, then of the other.
fn shares_dead(prepared: &Prepared, trail: &Trail, start_key: &[u8], end_key: &[u8]) -> bool
    requires { IsPrepared prepared.now.table.bytes.now prepared.now × IsTrail prepared.now.table.bytes.now start_key.now trail.now }
    ensures { result ≡ true → (trail.now.known ≤ common_prefix_len start_key.now end_key.now)
        × (MatchBetween prepared.now.table.bytes.now 0 start_key.now end_key.now → ⊥) }
{
    trail.is_dead(prepared) && end_key.starts_with(&start_key[..trail.known])
}

// Marks block i with 0 or 1, and returns the mark. The marks are bytes that C lends and reads, and the caller adds them up.
fn mark(marks: &mut [u8], i: usize, matches: bool) -> usize
    requires { i < length marks.old }
    ensures { (result ≡ cond «matches» 1 0) × (marks.new ≡ set marks.old i (cond «matches» 1 0)) }
{
    marks[i] = u8::from(matches);
    usize::from(matches)
}

// Whether a block behind the first matches. The states along its start key become those along its end key.
fn match_block(prepared: &mut Prepared, trail: &mut Trail, start_key: &[u8], end_key: &[u8]) -> bool
    requires { IsPrepared prepared.old.table.bytes.now prepared.old
        × IsTrail prepared.old.table.bytes.now start_key.now trail.old }
    ensures turned { Turned prepared.old.table.bytes.now start_key.now end_key.now trail.new result }
    ensures prepared { IsPrepared prepared.old.table.bytes.now prepared.new }
{
    if shares_dead(prepared, trail, start_key, end_key) {
        return false;
    }
    let common = keys::common_prefix_len(start_key, end_key);
    trail.follow(prepared, start_key, common);
    if trail.is_dead(prepared) {
        return false;
    }
    let base = trail.state_behind(prepared.table, start_key, common);
    can_block_match_from(prepared, base, common, start_key, end_key)
}

// Marks the blocks of a directory, 0 or 1 each. Returns how many are 1. The loop counts the blocks, since a directory reads each
// key at its place: no slice holds the keys.
fn mark_blocks(directory: Directory, table: Table, marks: &mut [u8]) -> usize
    requires { (keys_outside directory.bytes.now directory.n directory.n ≡ false) × (directory.n ≤ length marks.old) }
    ensures { Listing table.entry.bytes.now (key_of directory.entry.bytes.now directory.entry.n) directory.entry.n
        marks.old marks.new result }
{
    let mut prepared = Prepared::new(table);
    let first = can_block_match(&mut prepared, None, directory.key(0));
    let mut count = mark(marks, 0, first);
    let mut trail = Trail::new();
    for i in 1..directory.n {
        let start_key = directory.key(i - 1);
        let end_key = directory.key(i);
        let matches = match_block(&mut prepared, &mut trail, start_key, end_key);
        count += mark(marks, i, matches);
    }
    count
}

// Marks each block that can hold a key that the automaton accepts: n bytes, 0 or 1. Returns how many are 1.
pub fn get_block_for_automaton(
    opened: SSTableIndexV3,
    data: &[u8],
    table: &[u8],
    marks: &mut [u8],
) -> Result<usize, Refusal>
    ensures { GetBlockForAutomaton «data».now opened table.now marks.old marks.new (listed_no result) (listed_count result) }
{
    let directory = OpenedIndex::check(opened, data, opened.group_len())?.directory();
    if keys_outside(directory) {
        return Err(Refusal::Unfit);
    }
    let table = Table::check(table)?;
    if marks.len() < opened.n {
        return Err(Refusal::RoomShort);
    }
    Ok(mark_blocks(directory, table, marks))
}
