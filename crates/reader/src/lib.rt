// Readers of tables. Every byte string has the one answer that the written meaning gives it.
#![tactic(auto)]

pub mod calls;
pub mod expressions;
pub mod fields;
pub mod index;
pub mod label_places;
pub mod labels;
pub mod operators;
pub mod rules;
pub mod starts;
pub mod tables;
pub mod tags;
