// One walk over a content for each child: whether children with these sets of types match it.
#![tactic(auto)]

pub mod matching;
