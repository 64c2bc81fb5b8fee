// The sample of a document as a table.
#![tactic(auto)]

mod fields;
mod rules;
pub mod sample;
