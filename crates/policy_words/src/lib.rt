// The words of a policy: each reader takes what is left of a line, and answers what it read and what is left then.
#![tactic(auto)]

pub mod addresses;
pub mod causes;
pub mod choices;
pub mod laws;
pub mod numbers;
pub mod words;
