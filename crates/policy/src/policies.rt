// A policy: the tree of nodes, a meter beside each node, and the rules in their order.
ghost use Rattle.std.specs.Prelude.{◌≡◌, ◌≤◌, map, vec_len};
ghost use Rattle.policy.specs.Trees.{most_rules, AllUnder};

use crate::rules::Rule;
use crate::tree::Tree;

#[derive(Drop)]
pub struct Policy<M> {
    pub tree: Tree,
    // A table of its own beside the parents: a depth is found from a plain table of those alone.
    pub meters: Vec<M>,
    pub rules: Vec<Rule<M>>,
    ghost beside: { vec_len meters ≡ vec_len tree.parents },
    ghost few: { vec_len rules ≤ most_rules },
    ghost under: { AllUnder (vec_len tree.parents) (map (λ r. r.parent) rules.items) },
}
