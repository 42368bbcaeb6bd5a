// Packets, bytes and refusals of each node and of the line.
#![tactic(auto)]

pub mod laws;
pub mod noting;
pub mod rows;
