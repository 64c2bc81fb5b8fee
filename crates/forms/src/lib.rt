// The sets of pairs that are the types of a result, of either kind.
#![tactic(auto)]

// Sets of pairs in lent words.
pub mod set_words;

// The pairs of a label, and the sets of the labels.
pub mod label_sets;

// The numbers of the sets in place of pairs.
pub mod set_numbers;

// The sets of the single-type form.
pub mod worklist;
