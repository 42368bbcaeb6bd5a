// What was agreed: nodes under one another, each with a meter, and the rules that put a flow under a node.
#![tactic(auto)]

pub mod adding;
pub mod matching;
pub mod nodes;
pub mod policies;
pub mod rules;
pub mod tree;
