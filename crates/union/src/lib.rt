// The union of two tables by its rules and pairs: walks over source contents, the united view, the fruitful pairs.
#![tactic(auto)]

pub mod fruitful;
pub mod labels;
pub mod lists;
pub mod met;
pub mod places;
pub mod productive;
pub mod text;
pub mod united;
