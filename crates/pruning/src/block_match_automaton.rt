// The walk over a block's two keys, by the bytes that lead to acceptance from each state.
ghost use Rattle.std.specs.Prelude.{◌≡◌, [], ◌≤◌, ◌<◌, length, get_or};
ghost use Rattle.automaton.specs.Bits.{Exactly};
ghost use Rattle.automaton.specs.Table.{states};
ghost use Rattle.automaton.specs.Words.{run};
ghost use Rattle.automaton_live.specs.Prepared.{IsPrepared, FirstsReady, EndsReady};
ghost use Rattle.pruning.specs.Interval.{MatchAbove, MatchBetween};

use automaton::table::Table;
use automaton_live::Prepared;

// Whether a string above `start_key` can match from `state` on. Where the highest byte that leads on is the key's,
// the walk goes on behind it; a higher one matches, and below it the key's own leads nowhere. A loop here and below: each turn changes
// what is prepared.
fn match_range_start(prepared: &mut Prepared, start_key: &[u8], state: usize) -> bool
    requires { EndsReady prepared.old.table.bytes.now prepared.old × (state < states prepared.old.table.bytes.now) }
    ensures exactly { Exactly result (MatchAbove prepared.old.table.bytes.now state start_key.now) }
    ensures ready { EndsReady prepared.old.table.bytes.now prepared.new }
    ensures firsts { prepared.new.firsts ≡ prepared.old.firsts }
    ensures reach { prepared.new.reach ≡ prepared.old.reach }
{
    let table = prepared.table;
    let mut at = state;
    for kb in start_key {
        let behind = u16::from(*kb) + 1;
        let most = prepared.end(at);
        if most != behind {
            return most > behind;
        }
        at = table.accept(at, *kb);
    }
    prepared.end(at) > 0
}

// Whether a string that isn't empty and not above `end_key` can match from `state` on: the same by the lowest byte.
pub fn match_range_end(prepared: &mut Prepared, end_key: &[u8], state: usize) -> bool
    requires { FirstsReady prepared.old.table.bytes.now prepared.old × (state < states prepared.old.table.bytes.now) }
    ensures exactly { Exactly result (MatchBetween prepared.old.table.bytes.now state [] end_key.now) }
    ensures ready { FirstsReady prepared.old.table.bytes.now prepared.new }
    ensures ends { prepared.new.ends ≡ prepared.old.ends }
    ensures reach { prepared.new.reach ≡ prepared.old.reach }
{
    let table = prepared.table;
    let mut at = state;
    for kb in end_key {
        let least = prepared.first(at);
        let byte = u16::from(*kb);
        if least != byte {
            return least < byte;
        }
        at = table.accept(at, *kb);
        if table.is_match(at) {
            return true;
        }
    }
    false
}

// The state after the bytes that a key begins with. A loop: that each state that the turns lead to is one of the table's is a
// loop's invariant; of a `fold` it is an induction of its own.
pub fn accept_prefix(table: Table, prefix: &[u8]) -> usize
    ensures { (result ≡ run table.entry.bytes.now 0 prefix.now) × (result < states table.entry.bytes.now) }
{
    let mut state: usize = 0;
    for byte in prefix {
        state = table.accept(state, *byte);
    }
    state
}

// Whether a string above `start_key` and not above `end_key` can match from `state` on, where the first byte of the one
// is below that of the other. An interval's start and end are two parameters here and above: C hands them apart, the start may be
// absent in the outer functions and is there in the inner ones, and each walk takes the rest of one of them.
pub fn match_between(
    prepared: &mut Prepared,
    start_key: &[u8],
    end_key: &[u8],
    state: usize,
) -> bool
    requires { IsPrepared prepared.old.table.bytes.now prepared.old × (state < states prepared.old.table.bytes.now)
        × (0 < length start_key.now) × (0 < length end_key.now)
        × (get_or start_key.now 0 0 < get_or end_key.now 0 0) }
    ensures exactly { Exactly result (MatchBetween prepared.old.table.bytes.now state start_key.now end_key.now) }
    ensures prepared { IsPrepared prepared.old.table.bytes.now prepared.new }
    ensures reach { prepared.new.reach ≡ prepared.old.reach }
{
    let table = prepared.table;
    let start_range = start_key[0];
    let end_range = end_key[0];
    if prepared.end(state) <= u16::from(start_range) {
        return false;
    }
    if prepared.first(state) > u16::from(end_range) {
        return false;
    }
    let start_state = table.accept(state, start_range);
    if match_range_start(prepared, &start_key[1..], start_state) {
        return true;
    }
    if prepared.any_byte(state, usize::from(start_range) + 1, usize::from(end_range)) {
        return true;
    }
    let end_state = table.accept(state, end_range);
    if table.is_match(end_state) {
        return true;
    }
    match_range_end(prepared, &end_key[1..], end_state)
}
