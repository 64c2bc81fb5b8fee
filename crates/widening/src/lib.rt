// Widening tables by a table or by a document to the least local or single-type table, and the sample of a document: the calls.
#![tactic(auto)]

pub mod calls;
