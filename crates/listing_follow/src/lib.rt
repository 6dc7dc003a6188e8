// The state behind each byte of a key: followed from where the key before it is left, and past loops eight bytes at a time.
#![tactic(auto)]

ghost use Rattle.std.specs.Prelude.{◌≡◌, List, ℕ, ◌+◌, ◌≤◌, ◌<◌, length, take, get_or, replicate};
ghost use Rattle.std.proofs.lemmas.List.Edits.{sets};
ghost use Rattle.layout.specs.Layout.{max_key_len};
ghost use Rattle.automaton.specs.Bits.{bit, Exactly};
ghost use Rattle.automaton.specs.Table.{states as state_count, next};
ghost use Rattle.automaton.specs.Words.{run};
ghost use Rattle.listing_follow.specs.Followed.{Followed, IsTrail};

use automaton::table::Table;
use automaton_live::Prepared;
use layout::MAX_KEY_LEN;
use pruning::block_match_automaton::accept_prefix;

// The states behind the first bytes of a key: behind none of them, and so on up to `known`. They are an array, since there is no
// heap. That they are a key's stands in clauses and not in a ghost field: a trail goes on from the start key of a block to its
// end key, and a type that says whose states they are would lend it one key for good. So does that they are at most 1,024: IsTrail
// has both.
#[derive(Drop)]
pub struct Trail {
    pub states: [u8; 1025],
    pub known: usize,
}

// Whether each of the eight bytes from `at` on leads from the state to itself. It looks at all of them, where `all` would stop at
// the first that doesn't: so no look waits for another.
fn stays(table: Table, key: &[u8], at: usize, state: usize) -> bool
    requires { (state < state_count table.bytes.now) × (at + 8 ≤ length key.now) }
    ensures { Exactly result ((j : ℕ) → j < 8 → next table.entry.bytes.now state (get_or key.now (at + j) 0) ≡ state) }
{
    let mut all = true;
    for byte in &key[at..at + 8] {
        all &= table.accept(state, *byte) == state;
    }
    all
}

// Writes the state behind each of the eight bytes from `at` on.
fn fill_eight(states: &mut [u8; 1025], at: usize, state: u8)
    requires { at + 8 ≤ max_key_len }
    ensures { states.new ≡ sets states.old (at + 1) (replicate 8 state) }
{
    states[at + 1..at + 9].fill(state);
}

// As long as the next eight bytes lead back to the state, they are followed at once. Returns how many bytes are followed.
// It is tried behind every eighth byte alone, so that a state that is soon left costs little. The eights are counted, since the
// place is that of the key and of the states alike.
fn follow_loops(
    table: Table,
    key: &[u8],
    states: &mut [u8; 1025],
    from: usize,
    end: usize,
    state: usize,
) -> usize
    requires { Followed table.bytes.now key.now states.old from
        × ((state ≡ run table.bytes.now 0 (take from key.now)) × (state < state_count table.bytes.now))
        × (from ≤ end) × ((end ≤ max_key_len) × (end ≤ length key.now)) }
    ensures { ((from ≤ result) × (result ≤ end))
        × Followed table.entry.bytes.now key.now states.new result
        × (state ≡ run table.entry.bytes.now 0 (take result key.now)) }
{
    if from % 8 != 0 {
        return from;
    }
    let eights = (end - from) / 8;
    for k in 0..eights {
        let at = from + 8 * k;
        if !stays(table, key, at, state) {
            return at;
        }
        fill_eight(states, at, state as u8);
    }
    from + 8 * eights
}

impl Trail {
    // The start state, which is behind no byte of any key.
    pub fn new() -> Trail
        ensures { (t key : List ℕ) → IsTrail t key result }
    {
        Trail {
            states: [0; 1025],
            known: 0,
        }
    }

    // Follows the first n bytes of the key, or 1,024, and no further than to a dead state. Loops of the automaton are passed at
    // once, so that no `for` counts the bytes.
    pub fn follow(&mut self, prepared: &Prepared, key: &[u8], n: usize)
        requires { Followed prepared.now.table.bytes.now key.now self.old.states self.old.known × (self.old.known ≤ max_key_len)
            × (n ≤ length key.now) }
        ensures { IsTrail prepared.now.table.bytes.now key.now self.new × (self.new.known ≤ n) }
    {
        let table = prepared.table;
        let end = n.min(MAX_KEY_LEN);
        let mut i = self.known.min(end);
        let mut state = usize::from(self.states[i]);
        while i < end {
            if !prepared.can_match(state) {
                self.known = i;
                return;
            }
            let behind = table.accept(state, key[i]);
            i += 1;
            self.states[i] = behind as u8;
            if behind == state {
                i = follow_loops(table, key, &mut self.states, i, end, state);
            }
            state = behind;
        }
        self.known = end;
    }

    // Whether the last state can't match.
    pub fn is_dead(&self, prepared: &Prepared) -> bool
        requires { (self.now.known ≤ max_key_len) × (get_or self.now.states self.now.known 0 < 64) }
        ensures { Exactly result (bit prepared.now.reach (get_or self.now.states self.now.known 0) ≡ 0) }
    {
        !prepared.can_match(usize::from(self.states[self.known]))
    }

    // The state behind the first n bytes of the key. All of them are followed, but in a key that no file has.
    pub fn state_behind(&self, table: Table, key: &[u8], n: usize) -> usize
        requires { Followed table.bytes.now key.now self.now.states self.now.known × (self.now.known ≤ max_key_len)
            × (n ≤ length key.now) }
        ensures { (result ≡ run table.entry.bytes.now 0 (take n key.now)) × (result < state_count table.entry.bytes.now) }
    {
        if n == self.known {
            return usize::from(self.states[n]);
        }
        accept_prefix(table, &key[..n])
    }
}
