// The alternatives of a content, gathered into a row of operands.
#![tactic(auto)]

pub mod emitter;
