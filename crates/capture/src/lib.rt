// Captures in the pcap file format: read and written in either byte order, whole or in blocks.
#![tactic(auto)]

pub mod blocks;
pub mod feeding;
pub mod headers;
pub mod indexing;
pub mod laws;
pub mod layout;
pub mod nexts;
pub mod orders;
pub mod records;
