// Documents of either format, read. Every byte string has the one answer that the written meaning gives it.
#![tactic(auto)]

pub mod calls;
pub mod documents;
mod elements;
mod text;
