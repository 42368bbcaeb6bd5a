// Flows, nodes and the clock: a packet is judged along its path, and charged to all of it or to none.
#![tactic(auto)]

pub mod cores;
pub mod flows;
pub mod judging;
pub mod looking;
pub mod offering;
