// What a packet is: the headers of a frame, the flow it belongs to, its mark, and the bytes that are written of it.
#![tactic(auto)]

mod checksum;
pub mod codes;
pub mod headers;
pub mod kinds;
pub mod laws;
pub mod marking;
pub mod marks;
