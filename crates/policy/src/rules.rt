// The plain types: which frames a rule is for, and why a node or a rule is not taken.
use meter::measures::Mode;
use packet::kinds::{Address, Class, Station};

// Addresses that agree in their first bits.
#[derive(Clone, Copy, PartialEq, Eq, Debug)]
pub struct Prefix {
    pub(crate) address: Address,
    pub(crate) length: u8,
}

// A rule for conversations.
#[derive(Clone, Copy, PartialEq, Eq, Debug)]
pub struct IpRule {
    pub source: Prefix,
    pub destination: Prefix,
    // None is any
    pub protocol: Option<u8>,
    pub class: Class,
    // whether a packet is judged by the mark that it arrives with
    pub mode: Mode,
}

// The frames that a rule is for.
#[derive(Clone, Copy, PartialEq, Eq, Debug)]
pub enum Selector {
    Ip(IpRule),
    // None is any station
    Mac(Option<Station>),
}

// A rule: its frames, the node that they lie under, 0 for none, and the meter that each flow starts with.
#[derive(Clone, Copy, PartialEq, Eq, Debug)]
pub struct Rule<M> {
    pub selector: Selector,
    pub parent: u8,
    pub meter: M,
}

// Why a node or a rule is not taken.
#[derive(Clone, Copy, PartialEq, Eq, Debug)]
pub enum Refusal {
    // a node's number that is not the next
    WrongNumber,
    // a parent that is neither 0 nor an earlier node
    UnknownParent,
    // a node below the deepest that there may be
    TooDeep,
    TooManyNodes,
    TooManyRules,
}

// Why nothing was added.
#[derive(Clone, Copy, PartialEq, Eq, Debug)]
pub enum AddError {
    Refused(Refusal),
    NoMemory,
}
