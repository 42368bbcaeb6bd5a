// The text of a policy, in three layers: a word's fault gets its place in the line, a line's fault its line.
#![tactic(auto)]

pub mod amounts;
pub mod laws;
pub mod lines;
pub mod meters;
pub mod reader;
pub mod rule_lines;
