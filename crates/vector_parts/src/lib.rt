// What the programs that replay a list hold and count: lent areas, drawn numbers, answers as a list gives them, tallies.
#![tactic(auto)]

pub mod area;
pub mod draws;
pub mod tally;
pub mod told;
