// Sets of small numbers as bits of 32-bit words.
// Number k of a set stands in its word k / 32, as bit k % 32: no branch chooses the word.
#![tactic(auto)]

// A set of numbers, by value.
pub mod set;

// Sets that stand in lent words.
pub mod words;
