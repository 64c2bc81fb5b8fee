// The calls of membership and kind.
#![tactic(auto)]

pub mod calls;
mod deciding;
