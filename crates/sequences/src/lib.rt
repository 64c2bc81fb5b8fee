// The content and the mark of a path: its child sequences with their runs, and the choice of them.
#![tactic(auto)]

pub mod choices;
pub mod limits;
mod sequences;
pub mod texts;
