// Which states lead to acceptance. A word of 64 bits is a set of states, and an array of 64 words has one for each: a table has
// no more states, and there is no heap.
#![tactic(auto)]

ghost use Rattle.std.specs.Prelude.{◌≡◌, List, ℕ, true, ◌+◌, ◌-◌, ◌*◌, ◌^◌, ◌≤◌, ◌<◌, length, get_or};
ghost use Rattle.std.specs.Int.Bits.{bit_and, bit_or};
ghost use Rattle.serialize.specs.Digits.{number_at};
ghost use Rattle.automaton.specs.Bits.{bit, Exactly};
ghost use Rattle.automaton.specs.Table.{WellFormed, states, flag, next};
ghost use Rattle.automaton.specs.Words.{CanMatch, Reach};

use automaton::bits::{SetBits, is_set};
use automaton::table::Table;

// The word of the accepting states: a flag's place is its bit.
pub fn flags(table: Table) -> u64
    ensures upper_bound { result < 2 ^ states table.entry.bytes.now }
    ensures by_index { (s : ℕ) → s < states table.entry.bytes.now → bit result s ≡ flag table.entry.bytes.now s }
{
    let mut word: u64 = 0;
    for (s, flag) in table.bytes[1..=table.states()].iter().enumerate() {
        word |= u64::from(*flag) << s;
    }
    word
}

// The word of eight next states.
fn states_of(eight: &[u8; 8]) -> u64
    requires { (b : ℕ) → b < 8 → get_or eight.now b 0 < 64 }
    ensures by_index { (b : ℕ) → b < 8 → bit result (get_or eight.now b 0) ≡ 1 }
    ensures by_index_2 { (s : ℕ) → bit result s ≡ 1 → (b : ℕ) × (b < 8) × (get_or eight.now b 0 ≡ s) }
{
    let mut word: u64 = 0;
    for state in eight {
        word |= 1u64 << *state;
    }
    word
}

// Whether eight words all equal `last`. The loop has no branch, so that it is unrolled whole: `all` would have one a word.
fn repeats(bytes: &[u8; 64], last: u64) -> bool
    ensures { Exactly result ((k : ℕ) → k < 8 → number_at bytes.now (8 * k) 8 ≡ last) }
{
    let mut differ: u64 = 0;
    for eight in bytes.as_chunks::<8>().0 {
        differ |= u64::from_le_bytes(*eight) ^ last;
    }
    differ == 0
}

// Whether the 32 words of a row all equal `last`. It is asked before the quarters are looked at one by one, and not inlined: there the
// compiler loads a quarter's words for the test and for what comes behind it at once, in 27 instructions where 19 do.
#[inline(never)]
fn row_repeats(row: &[u8], last: u64) -> bool
    requires { length row.now ≡ 256 }
    ensures { result ≡ true → (k : ℕ) → k < 32 → number_at row.now (8 * k) 8 ≡ last }
{
    for quarter in row.as_chunks::<64>().0 {
        if !repeats(quarter, last) {
            return false;
        }
    }
    true
}

// The word of the next states in a row. Those that repeat the eight looked at last are in it: 64 of them are passed at once.
// The rest isn't looked at once the word has a bit of `wanted`.
fn next_states(row: &[u8], wanted: u64) -> u64
    requires { (length row.now ≡ 256) × ((b : ℕ) → b < 256 → get_or row.now b 0 < 64) }
    ensures b_value { bit_and result wanted ≡ 0 → (b : ℕ) → b < 256 → bit result (get_or row.now b 0) ≡ 1 }
    ensures by_index { (s : ℕ) → bit result s ≡ 1 → (b : ℕ) × (b < 256) × (get_or row.now b 0 ≡ s) }
{
    let first = &row.as_chunks::<8>().0[0];
    let mut last = u64::from_le_bytes(*first);
    let mut word = states_of(first);
    if word & wanted != 0 {
        return word;
    }
    if row_repeats(row, last) {
        return word;
    }
    for quarter in row.as_chunks::<64>().0 {
        if word & wanted != 0 {
            return word;
        }
        if repeats(quarter, last) {
            continue;
        }
        for bytes in quarter.as_chunks::<8>().0 {
            if word & wanted != 0 {
                return word;
            }
            let eight = u64::from_le_bytes(*bytes);
            if eight != last {
                word |= states_of(bytes);
                last = eight;
            }
        }
    }
    word
}

// For each state the word of those that a byte leads to from it. The loop counts the states: a row and its word are both found by
// the state's number.
pub fn successors(table: Table) -> [u64; 64]
    ensures by_index { (p b : ℕ) → p < states table.entry.bytes.now → b < 256
        → bit (get_or result p 0) (next table.entry.bytes.now p b) ≡ 1 }
    ensures by_index_2 { (p s : ℕ) → p < states table.entry.bytes.now → bit (get_or result p 0) s ≡ 1
        → (b : ℕ) × (b < 256) × (next table.entry.bytes.now p b ≡ s) }
{
    let mut words: [u64; 64] = [0; 64];
    for p in 0..table.states() {
        words[p] = next_states(table.row(p), 0);
    }
    words
}

// The word of the states below m that a word has not: those from m on are shifted out.
fn others(word: u64, m: usize) -> u64
    requires { (1 ≤ m) × (m ≤ 64) }
    ensures upper_bound { result < 2 ^ m }
    ensures by_index { (s : ℕ) → s < m → bit result s ≡ 1 - bit word s }
{
    (!word << (64 - m)) >> (64 - m)
}

// Sets bit p in the words of a word's states.
fn mark(words: &mut [u64; 64], states: u64, p: usize)
    requires { p < 64 }
    ensures words_len { length words.new ≡ 64 }
    ensures by_index { (s : ℕ) → bit states s ≡ 1 → get_or words.new s 0 ≡ bit_or (get_or words.old s 0) (2 ^ p) }
    ensures by_index_2 { (s : ℕ) → bit states s ≡ 0 → get_or words.new s 0 ≡ get_or words.old s 0 }
{
    for s in (SetBits { left: states }) {
        words[s] |= 1u64 << p;
    }
}

// Looks at the rows of the states of `unfound`, the lowest first, and gives the states found by it. A state with a next
// state that is found is found itself, and its row isn't looked at any further; of any other each next state keeps that
// it leads there.
fn first_look(table: Table, accepting: u64, unfound: u64, before: &mut [u64; 64]) -> u64
    requires accepting { (accepting < 2 ^ states table.bytes.now) × ((s : ℕ) → bit accepting s ≡ 1 → CanMatch table.bytes.now s) }
    requires unfound { unfound < 2 ^ states table.bytes.now }
    requires before_empty { (s : ℕ) → get_or before.old s 0 ≡ 0 }
    ensures upper_bound { (result < 2 ^ states table.entry.bytes.now) × ((s : ℕ) → bit accepting s ≡ 1 → bit result s ≡ 1)
        × ((s : ℕ) → bit result s ≡ 1 → CanMatch table.entry.bytes.now s) }
    ensures by_index { (s : ℕ) → get_or before.new s 0 < 2 ^ states table.entry.bytes.now }
    ensures by_index_2 { (p b : ℕ) → bit unfound p ≡ 1 → bit result p ≡ 0 → b < 256
        → bit (get_or before.new (next table.entry.bytes.now p b) 0) p ≡ 1 }
    ensures by_index_3 { (p s : ℕ) → bit (get_or before.new s 0) p ≡ 1
        → (b : ℕ) × (b < 256) × (next table.entry.bytes.now p b ≡ s) }
{
    let mut found = accepting;
    for p in (SetBits { left: unfound }) {
        let states = next_states(table.row(p), found);
        if states & found != 0 {
            found |= 1u64 << p;
        } else {
            mark(before, states, p);
        }
    }
    found
}

// The word of the states that can match. Where no state accepts, or all do, it is that of the accepting states.
pub fn reach(table: Table) -> u64
    ensures reach { Reach table.entry.bytes.now result }
    ensures upper_bound { result < 2 ^ states table.entry.bytes.now }
{
    let accepting = flags(table);
    let unfound = others(accepting, table.states());
    if accepting == 0 || unfound == 0 {
        return accepting;
    }
    let mut before: [u64; 64] = [0; 64];
    let mut found = first_look(table, accepting, unfound, &mut before);
    let mut waiting = SetBits { left: found };
    // No for: states are added to `waiting` as it goes.
    while let Some(s) = waiting.next() {
        let more = before[s] & !found;
        found |= more;
        waiting.left |= more;
    }
    found
}

// Whether a state can match, by the word of those that can: true exactly when acceptance can be reached from it in the
// table whose word this is. It is `is_set`, with what it means of such a word, and `Prepared` hands it on.
pub fn can_match(word: u64, state: usize) -> bool
    requires { state < 64 }
    ensures exactly { Exactly result (bit word state ≡ 1) }
    ensures by_index { (t : List ℕ) → Reach t word → state < states t → Exactly result (CanMatch t state) }
{
    is_set(word, state)
}
