// What a policer holds besides its totals.
use crate::flows::Flows;
use history::answers::Refusal;
use meter::measures::{Load, Moment, PacketColour};
use packet::kinds::Key;
use policy::rules::Rule;
use policy::tree::Tree;

// The flows, the meters of the nodes, the tree and the rules, and the moment of the last record that came in time.
#[derive(Drop)]
pub struct Core<'a, M> {
    pub flows: Flows<'a, M>,
    pub tree: Tree,
    // the meters beside the tree, as in a policy: the tree is of parents alone
    pub nodes: Vec<M>,
    pub rules: Vec<Rule<M>>,
    pub clock: Moment,
}

// A packet's flow, the place of its rule, and the colour with which it arrives.
#[derive(Clone, Copy, PartialEq, Eq, Debug)]
pub struct Flow {
    pub key: Key,
    pub rule: usize,
    pub arrival: PacketColour,
}

// A record as it is judged: its size and moment, and its flow, or why it has none.
#[derive(Clone, Copy, PartialEq, Eq, Debug)]
pub struct Offer {
    pub load: Load,
    pub flow: Result<Flow, Refusal>,
}
