// The types that derive each node of a document, and whether a start type derives the root.
#![tactic(auto)]

pub mod membership;
