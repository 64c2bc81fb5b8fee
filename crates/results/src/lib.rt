// The result of a widening by sets of pairs, written into a draft: labels used, starts, rules.
#![tactic(auto)]

pub mod labels_used;
pub mod plan;
pub mod result;
pub mod rules;
pub mod starts;
pub mod text_pairs;
