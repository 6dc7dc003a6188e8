// The table automaton that stands for the trait `Automaton` of tantivy_fst.
#![tactic(auto)]

pub mod bits;
pub mod table;
