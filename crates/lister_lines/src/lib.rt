// The lister's text: a table as lines of ASCII, and the line of a refusal.
#![tactic(auto)]

pub mod content_text;
pub mod limits;
pub mod lines;
pub mod pieces;
