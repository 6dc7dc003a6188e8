// The exported functions, for programs in C and Rust. Each that can be refused returns the table's number; a refusal sets what
// else it returns to 0. Record and bytes, an interval's start and end, a block's three numbers, a builder's areas come one by one, since
// C hands them so.
#![tactic(auto)]

mod answers;
mod build;
mod interface;
mod lookup;
mod pattern;
mod slice;
