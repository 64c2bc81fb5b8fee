// The fruitful pairs by type, and the pairs that reducing leaves.
#![tactic(auto)]

pub mod leaving;
pub mod meeting;
pub mod type_lists;
