// The tree of nodes: parents, depths, and what a new node or a rule may lie under.
ghost use Rattle.std.specs.Prelude.{◌≡◌, ◌≤◌, [], length, IfOk};
ghost use Rattle.policy.specs.Trees.{Earlier, depth_of, DepthLaw};
ghost use Rattle.policy.specs.Policies.{parents_of, parent_in, depth_in, room_of, number_of, under_of, known_of, node_of, Placed};

use crate::rules::Refusal;
use crate::tree::Tree;
use std::alloc::Global;

// The most nodes, and the greatest depth of one.
pub const MOST_NODES: u8 = 32;

pub const MOST_DEPTH: u8 = 7;

impl Tree {
    pub fn new(heap: Global) -> Tree
        ensures { parents_of result ≡ [] }
    {
        Tree {
            parents: Vec::new(heap),
        }
    }

    // The parent of each node, in their order.
    #[tactic(auto, using(crate::proofs::Ancestry::depth_law))]
    pub fn parents(&self) -> &[u8]
        ensures value { result.now ≡ parents_of self.now }
        ensures earlier { Earlier result.now }
        ensures law { DepthLaw result.now }
    {
        &self.parents
    }

    // How many nodes there are, which fits by `few`: also the number of the last.
    pub fn count(&self) -> u8
        ensures { result ≡ length (parents_of self.now) }
    {
        self.parents.len() as u8
    }

    // None for 0, and for a number above the last node.
    pub fn parent(&self, node: u8) -> Option<u8>
        ensures { result ≡ parent_in (parents_of self.now) node }
    {
        let place = usize::from(node).checked_sub(1)?;
        self.parents.get(place).copied()
    }

    // None for a number above the last node.
    #[tactic(auto, using(crate::proofs::Ancestry::depth_law))]
    pub fn depth(&self, node: u8) -> Option<u8>
        ensures value { result ≡ depth_in (parents_of self.now) node }
        ensures law { DepthLaw (parents_of self.now) }
    {
        if node > self.count() {
            return None;
        }
        Some(self.depth_from(node))
    }

    // Plain recursion up a plain table of parents: the number falls at each call.
    #[tactic(auto, using(crate::proofs::Ancestry::depth_more))]
    fn depth_from(&self, node: u8) -> u8
        requires { node ≤ length (parents_of self.now) }
        ensures value { result ≡ depth_of (parents_of self.now) node }
        ensures bound { result ≤ node }
    {
        if node == 0 {
            return 0;
        }
        1 + self.depth_from(self.parents[usize::from(node) - 1])
    }

    // The number of the next node, if there may be one more.
    pub fn next_number(&self) -> Result<u8, Refusal>
        ensures { result ≡ room_of (parents_of self.now) }
    {
        let count = self.count();
        if count >= MOST_NODES {
            return Err(Refusal::TooManyNodes);
        }
        Ok(count + 1)
    }

    // The number of a new node: the next.
    pub fn number(&self, number: u64) -> Result<u8, Refusal>
        ensures { result ≡ number_of (parents_of self.now) number }
    {
        let next = self.count() + 1;
        if number != u64::from(next) {
            return Err(Refusal::WrongNumber);
        }
        Ok(next)
    }

    // What a rule may lie under.
    pub fn known(&self, parent: u64) -> Result<u8, Refusal>
        ensures value { result ≡ known_of (parents_of self.now) parent }
        ensures known { IfOk result (λ p. p ≤ length (parents_of self.now)) }
    {
        match u8::try_from(parent) {
            Ok(parent) if parent <= self.count() => Ok(parent),
            _ => Err(Refusal::UnknownParent),
        }
    }

    // What a new node may lie under.
    pub fn under(&self, parent: u64) -> Result<u8, Refusal>
        ensures { result ≡ under_of (parents_of self.now) parent }
    {
        let parent = self.known(parent)?;
        if self.depth_from(parent) >= MOST_DEPTH {
            return Err(Refusal::TooDeep);
        }
        Ok(parent)
    }

    // The parent of a new node with this number: all that is asked of one, in its order.
    #[tactic(auto, using(crate::proofs::Taken::made_placed))]
    pub fn node(&self, number: u64, parent: u64) -> Result<u8, Refusal>
        ensures value { result ≡ node_of (parents_of self.now) number parent }
        ensures placed { IfOk result (Placed (parents_of self.now)) }
    {
        self.next_number()?;
        self.number(number)?;
        self.under(parent)
    }
}
