// The five kinds of meter: what is bought, and the meter made of it.
#![tactic(auto)]

pub mod kinds;
pub mod making;
pub mod profiles;
