// A packet charged along its path.
ghost use Rattle.std.specs.Prelude.{◌≡◌, map};
ghost use Rattle.paths.specs.Layers.{left_by, charged_node, charged_nodes};

use meter::measures::{Colour, Load};
use meter::metering::Meter;

// Charges the node of that number, if it is there; 0 is none.
fn charge_node<M: Meter>(nodes: &mut [M], node: u8, load: Load, colour: Colour)
    ensures { map M.meaning nodes.new ≡ charged_node load colour (map M.meaning nodes.old) node }
{
    let Some(at) = usize::from(node).checked_sub(1) else {
        return;
    };
    // No `get_mut`: it says nothing of what the slice ends as.
    if at < nodes.len() {
        let _ = nodes[at].charge(load, colour);
    }
}

// Charges each node of the path, one after another.
pub fn charge_nodes<M: Meter>(nodes: &mut [M], path: &[u8], load: Load, colour: Colour)
    ensures { map M.meaning nodes.new ≡ charged_nodes load colour (map M.meaning nodes.old) path.now }
{
    for node in path {
        charge_node(nodes, *node, load, colour);
    }
}

// Charges the flow's own meter.
pub fn charge_flow<M: Meter>(flow: &mut M, load: Load, colour: Colour)
    ensures { M.meaning flow.new ≡ left_by load colour (M.meaning flow.old) }
{
    let _ = flow.charge(load, colour);
}
