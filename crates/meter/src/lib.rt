// What a meter is: three measures, leaky buckets, the one interface of every kind of meter, and a meter alone.
#![tactic(auto)]

pub mod alone;
pub mod buckets;
pub mod measures;
pub mod metering;
pub mod states;
pub mod windows;
