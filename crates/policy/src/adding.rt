// Adding nodes and rules to a policy.
ghost use Rattle.std.specs.Prelude.{◌≡◌, [], length};
ghost use Rattle.policy.specs.declared.rules.AddError.TheVariants.{Refused, NoMemory};
ghost use Rattle.policy.specs.Policies.{parents_of, rule_room_of, NodeAdded, RuleAdded};

use crate::policies::Policy;
use crate::rules::{AddError, Refusal, Rule, Selector};
use crate::tree::Tree;
use std::alloc::{AllocError, AllocFailed, Global};

// The most rules, for conversations and stations together.
pub const MOST_RULES: usize = 64;

impl From<Refusal> for AddError {
    ghost from_gives = { λ e r. r ≡ Refused e };

    fn from(refusal: Refusal) -> AddError {
        AddError::Refused(refusal)
    }
}

impl From<AllocError> for AddError {
    ghost from_gives = { λ _ r. r ≡ NoMemory };

    fn from(_error: AllocError) -> AddError {
        AddError::NoMemory
    }
}

impl<T: Drop> From<AllocFailed<T>> for AddError {
    ghost from_gives = { λ _ r. r ≡ NoMemory };

    fn from(_refused: AllocFailed<T>) -> AddError {
        AddError::NoMemory
    }
}

impl<M: Copy> Policy<M> {
    // No node and no rule.
    pub fn new(heap: Global) -> Policy<M>
        ensures parents { parents_of result.tree ≡ [] }
        ensures meters { result.meters.items ≡ [] }
        ensures rules { result.rules.items ≡ [] }
    {
        Policy {
            tree: Tree::new(heap),
            meters: Vec::new(heap),
            rules: Vec::new(heap),
        }
    }

    // Whether there may be one more rule, and how many there are with it. The number of a next node differs in count,
    // bound and refusal: a common function would take all three, and say less.
    pub fn rule_room(&self) -> Result<usize, Refusal>
        ensures { result ≡ rule_room_of (length self.now.rules.items) }
    {
        if self.rules.len() >= MOST_RULES {
            return Err(Refusal::TooManyRules);
        }
        Ok(self.rules.len() + 1)
    }

    // One node more, with the next number. What is refused leaves the policy as it was.
    #[tactic(auto, using(crate::proofs::Pushed::under_more, crate::proofs::Pushed::earlier_push, crate::proofs::Pushed::shallow_push))]
    pub fn add_node(&mut self, number: u64, parent: u64, meter: M) -> Result<(), AddError>
        ensures { NodeAdded self.old self.new number parent meter result }
    {
        let parent = self.tree.node(number, parent)?;
        // memory for both first, so that neither is added alone
        self.meters.reserve(1)?;
        self.tree.parents.reserve(1)?;
        self.tree.parents.push_reserved(parent);
        self.meters.push_reserved(meter);
        Ok(())
    }

    // One rule more, behind the others. What is refused leaves the policy as it was.
    pub fn add_rule(&mut self, selector: Selector, parent: u64, meter: M) -> Result<(), AddError>
        ensures { RuleAdded self.old self.new selector parent meter result }
    {
        self.rule_room()?;
        let parent = self.tree.known(parent)?;
        let rule = Rule {
            selector,
            parent,
            meter,
        };
        self.rules.push(rule)?;
        Ok(())
    }
}
