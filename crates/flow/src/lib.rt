// Flow tables: rows that the caller lends, found by key through 64 chains. One text for every kind of key and meter.
#![tactic(auto)]

pub mod key;
pub mod keys;
pub mod links;
pub mod mapping;
pub mod row;
pub mod table;
