// Each kind of meter against the steps of the document that it keeps to.
#![tactic(auto)]

pub mod colouring;
