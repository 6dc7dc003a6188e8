// Whether an interval of keys holds an accepted string, from the walks along its two keys.
#![tactic(auto)]

ghost use Rattle.std.specs.Prelude.{◌≡◌, ◌<◌, take};
ghost use Rattle.keys.specs.Order.{common_prefix_len};
ghost use Rattle.automaton.specs.Bits.{Exactly};
ghost use Rattle.automaton.specs.Table.{states};
ghost use Rattle.automaton.specs.Words.{run};
ghost use Rattle.automaton_live.specs.Prepared.{IsPrepared};
ghost use Rattle.pruning.specs.Interval.{start_now, Marked, MatchBetween};
ghost use Rattle.pruning.specs.Answers.{matched_no, matches, CanBlockMatch};

use automaton::table::Table;
use automaton_live::Prepared;
use layout::refusals::Refusal;
use pruning::block_match_automaton::{accept_prefix, match_between, match_range_end};

// Whether a key above `start_key` and not above `end_key` can match, by the state behind the n bytes that they share. Here and below
// start and end stay two, as in pruning: C hands them apart, and the start may be absent.
pub fn can_block_match_from(
    prepared: &mut Prepared,
    base: usize,
    n: usize,
    start_key: &[u8],
    end_key: &[u8],
) -> bool
    requires { IsPrepared prepared.old.table.bytes.now prepared.old
        × (n ≡ common_prefix_len start_key.now end_key.now)
        × (base ≡ run prepared.old.table.bytes.now 0 (take n start_key.now)) × (base < states prepared.old.table.bytes.now) }
    ensures exactly { Exactly result (MatchBetween prepared.old.table.bytes.now 0 start_key.now end_key.now) }
    ensures prepared { IsPrepared prepared.old.table.bytes.now prepared.new }
    ensures reach { prepared.new.reach ≡ prepared.old.reach }
{
    if n == end_key.len() {
        return false;
    }
    if n == start_key.len() {
        return match_range_end(prepared, &end_key[n..], base);
    }
    if end_key[n] < start_key[n] {
        return false;
    }
    match_between(prepared, &start_key[n..], &end_key[n..], base)
}

fn can_block_match_automaton_with_start(
    prepared: &mut Prepared,
    start_key: &[u8],
    end_key: &[u8],
) -> bool
    requires { IsPrepared prepared.old.table.bytes.now prepared.old }
    ensures exactly { Exactly result (MatchBetween prepared.old.table.bytes.now 0 start_key.now end_key.now) }
    ensures prepared { IsPrepared prepared.old.table.bytes.now prepared.new }
    ensures reach { prepared.new.reach ≡ prepared.old.reach }
{
    let n = keys::common_prefix_len(start_key, end_key);
    let base = accept_prefix(prepared.table, &start_key[..n]);
    can_block_match_from(prepared, base, n, start_key, end_key)
}

// The same for the first block too, which has no start and lets the empty string in.
#[inline(always)]
pub fn can_block_match(prepared: &mut Prepared, start_key: Option<&[u8]>, end_key: &[u8]) -> bool
    requires { IsPrepared prepared.old.table.bytes.now prepared.old }
    ensures exactly { Exactly result (Marked prepared.old.table.bytes.now (start_now start_key.entry) end_key.now) }
    ensures prepared { IsPrepared prepared.old.table.bytes.now prepared.new }
    ensures reach { prepared.new.reach ≡ prepared.old.reach }
{
    // A match: two closures would each hold `prepared`; one condition over both cases would be no shorter.
    match start_key {
        Some(start_key) => can_block_match_automaton_with_start(prepared, start_key, end_key),
        None => {
            prepared.table.is_match(0)
                || can_block_match_automaton_with_start(prepared, &end_key[..0], end_key)
        }
    }
}

// Whether a key above `start_key` and not above `end_key` can match; the first block has no start key.
pub fn can_block_match_automaton(
    start_key: Option<&[u8]>,
    end_key: &[u8],
    table: &[u8],
) -> Result<bool, Refusal>
    ensures { CanBlockMatch table.now (start_now start_key.entry) end_key.now (matched_no result) (matches result) }
{
    let table = Table::check(table)?;
    let mut prepared = Prepared::new(table);
    Ok(can_block_match(&mut prepared, start_key, end_key))
}
