// What was offered and answered, and what follows from it alone.
#![tactic(auto)]

pub mod answers;
pub mod laws;
