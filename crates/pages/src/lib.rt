// A table on printed pages.
#![tactic(auto)]

pub mod calls;
mod lines;
mod rows;
mod sheets;
mod texts;
