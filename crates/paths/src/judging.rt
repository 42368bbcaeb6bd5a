// The colour of a packet along its path.
ghost use Rattle.std.specs.Prelude.{◌≡◌, not, position};
ghost use Rattle.meter.specs.Alone.{allowed};
ghost use Rattle.meter.specs.declared.measures.Colour.{Colour};
ghost use Rattle.paths.specs.Layers.{taken_by, best, lowest};

use crate::layers::{Meters, Place};
use meter::measures::{Colour, Load, PacketColour};
use meter::metering::Meter;

// No better than it arrived.
fn is_allowed(arrival: PacketColour, colour: Colour) -> bool
    ensures { result ≡ allowed arrival colour }
{
    match arrival {
        PacketColour::Green => true,
        PacketColour::Yellow => colour == Colour::Yellow,
        PacketColour::Red => false,
    }
}

impl<M: Meter> Meters<'_, M> {
    // The best colour, no better than it arrived with, that every meter of the path takes: colours outside, layers
    // inside, and the label leaves a colour at the first meter that does not take it.
    pub fn best_colour(self, path: &[u8], load: Load, arrival: PacketColour) -> Option<Colour>
        ensures { result ≡ best (taken_by M.meaning self.entry load) arrival path.now }
    {
        'colours: for colour in [Colour::Green, Colour::Yellow] {
            if !is_allowed(arrival, colour) {
                continue;
            }
            for node in path {
                if !self.fits(*node, load, colour) {
                    continue 'colours;
                }
            }
            return Some(colour);
        }
        None
    }

    fn first_unfit(self, path: &[u8], load: Load) -> Option<usize>
        ensures { result ≡ position (λ k. not (taken_by M.meaning self.entry load Colour.Yellow k)) path.now }
    {
        path.iter()
            .position(|node| !self.fits(*node, load, Colour::Yellow))
    }

    // The lowest layer that does not take the packet yellow.
    #[tactic(auto, using(crate::proofs::Lowest::lowest_position))]
    pub fn lowest_unfit(self, path: &[u8], load: Load) -> Option<Place>
        ensures { result ≡ lowest (taken_by M.meaning self.entry load Colour.Yellow) 0 path.now }
    {
        let layer = self.first_unfit(path, load)?;
        Some(Place {
            layer,
            node: path[layer],
        })
    }
}
