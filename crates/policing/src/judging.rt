// A packet on its way along a path: its answer, and its charge.
ghost use Rattle.std.specs.Prelude.{◌≡◌, map};
ghost use Rattle.paths.specs.Layers.{layers_of, fits_at, over_at, taken_by, lifted_by};
ghost use Rattle.history.specs.Answers.{judged};
ghost use Rattle.policing.specs.Passing.{Taken};

use history::answers::{Answer, Refusal};
use meter::measures::{Load, PacketColour};
use meter::metering::Meter;
use paths::charging::{charge_flow, charge_nodes};
use paths::layers::Meters;
use paths::path::Path;

// A packet as its path sees it.
#[derive(Clone, Copy)]
pub struct Passage {
    pub path: Path,
    pub load: Load,
    pub arrival: PacketColour,
}

// The best colour that every meter takes; otherwise the lowest that does not take the packet yellow is to blame.
pub fn judge<M: Meter>(meters: Meters<'_, M>, passage: &Passage) -> Answer
    ensures { result ≡ judged (taken_by M.meaning meters.entry passage.now.load) (lifted_by M.meaning meters.entry passage.now.load) passage.now.arrival (layers_of passage.now.path) }
{
    let Passage {
        path,
        load,
        arrival,
    } = passage;
    if *arrival == PacketColour::Red {
        return Err(Refusal::MarkedRed);
    }
    let layers = path.layers();
    if let Some(colour) = meters.best_colour(layers, *load, *arrival) {
        return Ok(colour);
    }
    let place = meters
        .lowest_unfit(layers, *load)
        .ok_or(Refusal::MarkedRed)?;
    Err(if meters.is_over(place.node, *load) {
        Refusal::OverDepth(place)
    } else {
        Refusal::OverExcess(place)
    })
}

// Judges a packet, and charges it to the whole path where it is carried. `Meters` only lends them to be asked.
pub fn pass<M: Meter>(flow: &mut M, nodes: &mut [M], passage: &Passage) -> Answer
    ensures judged { result ≡ judged (fits_at passage.now.load (M.meaning flow.old) (map M.meaning nodes.old)) (over_at passage.now.load (M.meaning flow.old) (map M.meaning nodes.old)) passage.now.arrival (layers_of passage.now.path) }
    ensures taken { Taken M.meaning passage.now flow.old flow.new nodes.old nodes.new result }
{
    let colour = judge(Meters { flow, nodes }, passage)?;
    charge_flow(flow, passage.load, colour);
    charge_nodes(nodes, passage.path.layers(), passage.load, colour);
    Ok(colour)
}
