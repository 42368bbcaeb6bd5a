// The nodes by the numbers of their parents.
ghost use Rattle.std.specs.Prelude.{◌≤◌, vec_len};
ghost use Rattle.policy.specs.Trees.{most_nodes, Earlier, Shallow};

// No model: what is proved of a path names these facts of its tree, and a model would hide them.
// Nodes are numbered from 1; the parent of node n stands at n - 1, and 0 is no node. The meters stand beside, not here.
#[derive(Drop)]
pub struct Tree {
    pub(crate) parents: Vec<u8>,
    ghost few: { vec_len parents ≤ most_nodes },
    ghost earlier: { Earlier parents.items },
    ghost shallow: { Shallow parents.items },
}
