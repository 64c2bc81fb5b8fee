// A sample or a result made in a draft, and handed over.
#![tactic(auto)]

pub mod drafting;
