// Distances from states to acceptance.
#![tactic(auto)]

ghost use Rattle.std.specs.Prelude.{◌≡◌, ℕ, ◌^◌, ◌≤◌, ◌<◌, length, get_or};
ghost use Rattle.automaton.specs.Bits.{bit};
ghost use Rattle.example_distance.specs.Measured.{IsMeasured};

use automaton::bits::SetBits;
use automaton::table::Table;
use automaton_reach::{flags, successors};

// A table with its distances: for each state the length of a shortest string that leads to acceptance, 64 where there is
// none: it is above each distance, so that the walks compare without a case. They are an array, since there is no heap. That they
// are right stands in the contracts and not in a ghost field: it has strings, so more than one proof, and a truncated fact doesn't
// give the string back.
#[derive(Clone, Copy)]
pub struct Measured<'a> {
    pub table: Table<'a>,
    pub distances: [u8; 64],
}

// The word of the states from which a byte leads to a state of the level, by the successors of each: a state's place is its bit.
fn leading_to_level(successors: &[u64], level: u64) -> u64
    requires { length successors.now ≤ 64 }
    ensures upper_bound { result < 2 ^ length successors.now }
    ensures by_index { (p s : ℕ) → p < length successors.now → bit (get_or successors.now p 0) s ≡ 1 → bit level s ≡ 1
        → bit result p ≡ 1 }
    ensures by_index_2 { (p : ℕ) → bit result p ≡ 1 → (s : ℕ) × (bit (get_or successors.now p 0) s ≡ 1) × (bit level s ≡ 1) }
{
    let mut word: u64 = 0;
    for (p, next) in successors.iter().enumerate() {
        if *next & level != 0 {
            word |= 1u64 << p;
        }
    }
    word
}

// Writes the distance of a level's states.
fn write_level(distances: &mut [u8; 64], level: u64, distance: u8)
    ensures distances_len { length distances.new ≡ 64 }
    ensures by_index { (s : ℕ) → s < 64 → bit level s ≡ 1 → get_or distances.new s 0 ≡ distance }
    ensures by_index_2 { (s : ℕ) → bit level s ≡ 0 → get_or distances.new s 0 ≡ get_or distances.old s 0 }
{
    for s in (SetBits { left: level }) {
        distances[s] = distance;
    }
}

impl<'a> Measured<'a> {
    // Level by level, the states that accept first.
    pub fn new(table: Table<'a>) -> Measured<'a>
        ensures same { result.table.bytes.now ≡ table.entry.bytes.now }
        ensures measured { IsMeasured result }
    {
        let m = table.states();
        let steps = successors(table);
        let mut distances: [u8; 64] = [64; 64];
        let mut found: u64 = 0;
        let mut level = flags(table);
        let mut distance: u8 = 0;
        // From level to level until one is empty: how many there are isn't known before.
        while level != 0 {
            write_level(&mut distances, level, distance);
            found |= level;
            level = leading_to_level(&steps[..m], level) & !found;
            distance += 1;
        }
        Measured { table, distances }
    }
}
