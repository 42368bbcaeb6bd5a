// Frames with known answers: a published IPv4 header, and others whose checksums are worked out by hand.
#![tactic(auto)]

#[cfg(test)]
mod frames;
#[cfg(test)]
mod marking;
#[cfg(test)]
mod reading;
