// A packet along the meters of its path: the path itself, the best colour that fits them all, and its charge.
#![tactic(auto)]

pub mod charging;
pub mod judging;
pub mod layers;
pub mod path;
pub mod walking;
