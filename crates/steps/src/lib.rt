// All steps of a widening together: from two tables that were read to the result in a draft.
#![tactic(auto)]

pub mod start_types;
pub mod widen;
