// A node's label and its rules, found by name.
#![tactic(auto)]

pub mod chains;
pub mod label_search;
