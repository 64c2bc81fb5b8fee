// What all readers and calls stand on: limits, refusals by number, lent words, the classes of bytes, names.
#![tactic(auto)]

pub mod ascii;
pub mod classes;
pub mod limits;
pub mod names;
pub mod refusals;
pub mod work;
