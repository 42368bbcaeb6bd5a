// Policies at their bounds: nodes, depths and rules; prefixes; which rule a key has.
#![tactic(auto)]

#[cfg(test)]
mod adding;
#[cfg(test)]
mod matching;
