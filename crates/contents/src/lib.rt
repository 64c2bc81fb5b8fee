// The content of a result type, made in a draft.
#![tactic(auto)]

pub mod completing;
pub mod joining;
