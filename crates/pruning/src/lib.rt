// Whether a block can hold a key that an automaton accepts: src/block_match_automaton.rs.
#![tactic(auto)]

pub mod block_match_automaton;
