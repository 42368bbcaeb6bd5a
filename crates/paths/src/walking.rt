// From a node up to the end of its chain.
ghost use Rattle.std.specs.Prelude.{◌≡◌, ◌∷◌};
ghost use Rattle.policy.specs.Trees.{most_depth, parent_of, upward};
ghost use Rattle.paths.specs.Layers.{layers_of};

use crate::path::{MOST_LAYERS, Path};

// The parent of a node; one that is not there has none.
fn parent_of(parents: &[u8], node: u8) -> u8
    ensures { result ≡ parent_of parents.now node }
{
    let at = usize::from(node).saturating_sub(1);
    parents.get(at).copied().unwrap_or(0)
}

impl Path {
    // From a node up, over as many nodes as a path can have.
    pub fn new(parents: &[u8], start: u8) -> Path
        ensures { layers_of result ≡ 0 ∷ upward most_depth parents.now start }
    {
        let mut numbers = [0; MOST_LAYERS];
        let mut node = start;
        for (nodes, number) in numbers[1..].iter_mut().enumerate() {
            if node == 0 {
                return Path {
                    numbers,
                    count: 1 + nodes,
                };
            }
            *number = node;
            node = parent_of(parents, node);
        }
        Path {
            numbers,
            count: MOST_LAYERS,
        }
    }

    // The numbers of its layers, the lowest first.
    pub fn layers(&self) -> &[u8]
        ensures { result.now ≡ layers_of self.now }
    {
        &self.numbers[..self.count]
    }
}
