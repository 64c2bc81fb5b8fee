// The kinds of a table that was read.
#![tactic(auto)]

pub mod kinds;
