// The path of a flow: its own meter, then the node that it lies under, that node's parent, and so on.
ghost use Rattle.std.specs.Prelude.{◌≤◌};

use policy::nodes::MOST_DEPTH;

// A flow's meter, and a node for each depth. A cast, since a constant calls no `from`.
pub(crate) const MOST_LAYERS: usize = MOST_DEPTH as usize + 1;

// The numbers of the nodes from the lowest layer on; 0 is the flow's own meter.
// An array and a count: a path is copied freely, where the library's array vector is not `Copy` and its clone can fail.
#[derive(Clone, Copy)]
pub struct Path {
    pub(crate) numbers: [u8; MOST_LAYERS],
    pub(crate) count: usize,
    ghost few: { count ≤ 8 },
}
