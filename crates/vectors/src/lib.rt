// Replaying a list of cases.
#![tactic(auto)]

pub mod driver;
