// Fields of a table written into a draft, one after the other.
#![tactic(auto)]

pub mod writing;
