// The paths of names in a document: parents, types and labels by first visit.
#![tactic(auto)]

pub mod labels;
mod numbering;
pub mod parents;
pub mod paths;
