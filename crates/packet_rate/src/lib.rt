// A sixth meter, as an example: so many packets a second, whatever their size. Nothing above the interface knows of it.
#![tactic(auto)]

ghost use Rattle.std.specs.Prelude.{◌≡◌, IfOk};
ghost use Rattle.meter.specs.Rules.{unused};
ghost use Rattle.packet_rate.specs.Packets.{packet_meaning, packet_terms, PacketsWithin};
ghost use Rattle.std.proofs.Common.{rules};

use meter::alone::colour_all;
use meter::measures::{Arrival, Bucket, Grains, Limit, Moment, PacketColour, Refusal, State};
use meter::metering::Meter;
use std::alloc::{AllocError, Global};

const GRAINS_A_PACKET: u64 = 1_000_000;

// Packets a second, and the most of them at once. A rate of 0 stands for 1, a fill above the depth for the depth.
#[derive(Clone, Copy, PartialEq, Eq, Debug)]
pub struct PacketRate {
    pub rate: u32,
    pub burst: u32,
    pub fill: Grains,
    pub last: Moment,
}

impl Meter for PacketRate {
    ghost meaning = { packet_meaning };

    ghost sound = { Prim.search rules };

    fn state(&self) -> State {
        let depth = Grains(u64::from(self.burst) * GRAINS_A_PACKET);
        State {
            base: Grains(GRAINS_A_PACKET),
            per_byte: Grains(0),
            all: Bucket {
                limit: Limit {
                    rate: u64::from(self.rate.max(1)),
                    depth,
                },
                fill: self.fill.min(depth),
                last: self.last,
            },
            green: None,
            excess: None,
        }
    }

    fn store(&mut self, state: State) {
        // By hand: the five kinds' own `Level` is not known here, where only the interface is.
        self.fill = state.all.fill;
        self.last = state.all.last;
    }
}

impl PacketRate {
    pub fn new(rate: u32, burst: u32) -> PacketRate
        ensures { packet_meaning result ≡ unused (packet_terms rate burst) }
    {
        PacketRate {
            rate,
            burst,
            fill: Grains(0),
            last: Moment(0),
        }
    }
}

// The interface's own law at this meter: from any packet carried to itself or a later one, no more packets than the
// rate gives in that time, and the burst.
pub fn colour_packets(
    heap: Global,
    rate: u32,
    burst: u32,
    arrivals: &[Arrival],
) -> Result<Vec<Result<PacketColour, Refusal>>, AllocError>
    ensures { IfOk result (λ v. PacketsWithin rate burst arrivals.now v.items) }
{
    let mut meter = PacketRate::new(rate, burst);
    colour_all(heap, &mut meter, arrivals)
}
