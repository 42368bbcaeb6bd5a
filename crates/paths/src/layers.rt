// The meters of a path by the numbers of their nodes; 0 stands for the flow's own meter.
ghost use Rattle.std.specs.Prelude.{◌≡◌, map, option_map};
ghost use Rattle.paths.specs.Layers.{meter_at, taken_by, lifted_by};

use meter::measures::{Colour, Load};
use meter::metering::Meter;

// A layer of a path, 0 the flow's own meter, and the node that stands there, 0 for the flow's.
#[derive(Clone, Copy, PartialEq, Eq, Debug)]
pub struct Place {
    pub layer: usize,
    pub node: u8,
}

// The meters that a path can lead along: the flow's own, and those of the nodes.
#[derive_where(Clone, Copy)]
pub struct Meters<'a, M> {
    pub flow: &'a M,
    pub nodes: &'a [M],
}

impl<'a, M: Meter> Meters<'a, M> {
    // The meter of that number, if it is there.
    fn meter(self, node: u8) -> Option<&'a M>
        ensures { option_map (λ m. M.meaning m.now) result ≡ meter_at (M.meaning self.entry.flow.now) (map M.meaning self.entry.nodes.now) node }
    {
        match usize::from(node).checked_sub(1) {
            Some(at) => self.nodes.get(at),
            None => Some(self.flow),
        }
    }

    // Whether the meter of that number takes the packet; one that is not there takes none.
    pub fn fits(self, node: u8, load: Load, colour: Colour) -> bool
        ensures { result ≡ taken_by M.meaning self.entry load colour node }
    {
        self.meter(node)
            .is_some_and(|meter| meter.fits(load, colour))
    }

    // Whether the packet would lift the meter of that number over its depth.
    pub fn is_over(self, node: u8, load: Load) -> bool
        ensures { result ≡ lifted_by M.meaning self.entry load node }
    {
        self.meter(node).is_some_and(|meter| {
            meter.ask(load, Colour::Yellow).is_ok_and(|fit| fit.over)
        })
    }
}
