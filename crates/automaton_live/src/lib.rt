// Which bytes lead to a state that can match.
#![tactic(auto)]

ghost use Rattle.std.specs.Prelude.{◌≡◌, ℕ, ◌+◌, ◌-◌, ◌≤◌, ◌<◌, cond, length, get_or};
ghost use Rattle.automaton.specs.Bits.{bit, Exactly};
ghost use Rattle.automaton.specs.Table.{states, next};
ghost use Rattle.automaton.specs.Words.{CanMatch, Reach};
ghost use Rattle.automaton.specs.Live.{LiveByte, FirstLive, EndLive};
ghost use Rattle.automaton_live.specs.Nearest.{place, Nearest};
ghost use Rattle.automaton_live.specs.Prepared.{IsPrepared, FirstsReady, EndsReady};

use automaton::bits::is_set;
use automaton::table::Table;

// What the walks along keys have of a table: the word of the states that can match, and for the states asked for so far the
// lowest byte that leads on, and one more than the highest. That they are right stands in the contracts and not in a ghost
// field: it has strings, so more than one proof, and a truncated fact doesn't give the string back. The lowest and the highest
// are two arrays, since each search asks for one of them and leaves the other as it is; so do `first` and `end`, which differ in the
// array, in what stands for none, and in their clauses. They are arrays, since there is no heap.
#[derive(Drop)]
pub struct Prepared<'a> {
    pub table: Table<'a>,
    pub reach: u64,
    pub firsts: [Option<u16>; 64],
    pub ends: [Option<u16>; 64],
}

// The k-th of n places, from the front or from the back.
fn place<const BACK: bool>(n: usize, k: usize) -> usize
    requires { k < n }
    ensures { result ≡ place BACK n k }
{
    if BACK { n - 1 - k } else { k }
}

// Of the eight next states from `at` on the first that can match, from the front or from the back. A loop counts the places: tried
// with `find` over the places mapped, the check knew nothing of what a closure gives that calls a function with a constant parameter.
fn nearest_of_eight<const BACK: bool>(bytes: &[u8], reach: u64, at: usize) -> Option<usize>
    requires { (at + 8 ≤ length bytes.now) × ((j : ℕ) → j < 8 → get_or bytes.now (at + j) 0 < 64) }
    ensures { Nearest (λ j. bit reach (get_or bytes.now (at + j) 0) ≡ 1) BACK 8 result }
{
    for k in 0..8 {
        let j = place::<BACK>(8, k);
        if is_set(reach, usize::from(bytes[at + j])) {
            return Some(j);
        }
    }
    None
}

impl<'a> Prepared<'a> {
    // Inlined: handed out by value, the two arrays were set, set again and copied, over 500 bytes each time.
    #[inline(always)]
    pub fn new(table: Table<'a>) -> Prepared<'a>
        ensures { IsPrepared table.entry.bytes.now result }
    {
        Prepared {
            table,
            reach: automaton_reach::reach(table),
            firsts: [None; 64],
            ends: [None; 64],
        }
    }

    // Whether a state can match.
    pub fn can_match(&self, state: usize) -> bool
        requires { state < 64 }
        ensures { Exactly result (bit self.now.reach state ≡ 1) }
    {
        automaton_reach::can_match(self.reach, state)
    }

    // Whether a byte from lo on and below hi leads on. They stay two: lo is one more than a byte, hi a byte, and the clauses take each
    // by itself.
    pub fn any_byte(&self, state: usize, lo: usize, hi: usize) -> bool
        requires { Reach self.now.table.bytes.now self.now.reach × (state < states self.now.table.bytes.now) × (hi ≤ 256) }
        ensures { Exactly result (LiveByte self.now.table.bytes.now state lo hi) }
    {
        let row = self.table.row(state);
        (lo..hi).any(|b| is_set(self.reach, usize::from(row[b])))
    }

    // The first byte that leads on from a state, from the front or from the back. Eight next states that equal eight that lead
    // nowhere are passed over; no eight equal those that the loop begins with. A loop counts the places, as above: it goes from the
    // front or from the back by a constant, and hands on `dead`. Eight are one load: read at a place of the row, they are put together of
    // the bytes that `nearest_of_eight` looks at.
    fn nearest<const BACK: bool>(&self, state: usize) -> Option<usize>
        requires { Reach self.now.table.bytes.now self.now.reach × (state < states self.now.table.bytes.now) }
        ensures { Nearest (λ b. CanMatch self.now.table.bytes.now (next self.now.table.bytes.now state b)) BACK 256 result }
    {
        let reach = self.reach;
        let row = self.table.row(state);
        let eights = row.as_chunks::<8>().0;
        let mut dead = u64::MAX;
        for k in 0..32 {
            let from = 8 * place::<BACK>(32, k);
            let eight = u64::from_le_bytes(eights[from / 8]);
            if eight != dead {
                if let Some(j) = nearest_of_eight::<BACK>(row, reach, from) {
                    return Some(from + j);
                }
                dead = eight;
            }
        }
        None
    }

    // The lowest byte that leads on from a state, worked out when it is first asked for; 256 where there is none: a bound, which
    // is compared as one. Here and in `end` a known answer is returned by hand: of what `get_or_insert_with` lends, and that the other
    // states stay, the check found no proof (tried in `first`, by search alone).
    pub fn first(&mut self, state: usize) -> u16
        requires { FirstsReady self.old.table.bytes.now self.old × (state < states self.old.table.bytes.now) }
        ensures first_live { FirstLive self.old.table.bytes.now state result }
        ensures ready { FirstsReady self.old.table.bytes.now self.new }
        ensures ends { self.new.ends ≡ self.old.ends }
        ensures reach { self.new.reach ≡ self.old.reach }
    {
        if let Some(known) = self.firsts[state] {
            return known;
        }
        let byte = self.nearest::<false>(state);
        let first = byte.unwrap_or(256) as u16;
        self.firsts[state] = Some(first);
        first
    }

    // One more than the highest byte that leads on from a state, worked out when it is first asked for; 0 where there is none: a
    // bound too.
    pub fn end(&mut self, state: usize) -> u16
        requires { EndsReady self.old.table.bytes.now self.old × (state < states self.old.table.bytes.now) }
        ensures end_live { EndLive self.old.table.bytes.now state result }
        ensures ready { EndsReady self.old.table.bytes.now self.new }
        ensures firsts { self.new.firsts ≡ self.old.firsts }
        ensures reach { self.new.reach ≡ self.old.reach }
    {
        if let Some(known) = self.ends[state] {
            return known;
        }
        let byte = self.nearest::<true>(state);
        let end = byte.map_or(0, |b| b + 1) as u16;
        self.ends[state] = Some(end);
        end
    }
}
