// Rows of operands in a draft.
#![tactic(auto)]

pub mod drafts;
pub mod limits;
