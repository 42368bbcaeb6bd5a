// A meter alone: one packet, or a list of them, at the best colour that fits and is no better than the arrival colour.
ghost use Rattle.std.specs.Prelude.{◌≡◌, MatchResult};
ghost use Rattle.meter.specs.Rules.{SameTerms};
ghost use Rattle.meter.specs.Alone.{best_of, by_colour, Best, colour_of, coloured, left_by, seen_as, Untouched};
ghost use Rattle.meter.specs.Runs.{Ran};

use crate::measures::{Arrival, Colour, Load, Mode, PacketColour, Refusal};
use crate::metering::Meter;
use std::alloc::{AllocError, Global};

impl PacketColour {
    // The best colour that fits, for a packet that arrives with this one.
    pub fn best(self, green_fits: bool, yellow_fits: bool) -> Option<Colour>
        ensures value { result ≡ best_of (by_colour green_fits yellow_fits) self }
        ensures best { Best (by_colour green_fits yellow_fits) self result }
    {
        match self {
            PacketColour::Green if green_fits => Some(Colour::Green),
            PacketColour::Green | PacketColour::Yellow if yellow_fits => Some(Colour::Yellow),
            _ => None,
        }
    }
}

// The colour of a packet that is carried so; one that is not carried is red.
impl From<Option<Colour>> for PacketColour {
    ghost from_gives = { λ best colour. colour ≡ colour_of best };

    fn from(best: Option<Colour>) -> PacketColour {
        match best {
            Some(Colour::Green) => PacketColour::Green,
            Some(Colour::Yellow) => PacketColour::Yellow,
            None => PacketColour::Red,
        }
    }
}

impl Mode {
    // The colour by which a packet that arrives with this one is judged.
    pub fn sees(self, colour: PacketColour) -> PacketColour
        ensures { result ≡ seen_as self colour }
    {
        match self {
            Mode::Blind => PacketColour::Green,
            Mode::Aware => colour,
        }
    }
}

impl Arrival {
    pub(crate) fn load(self) -> Load
        ensures { (result.size ≡ self.size) × (result.moment ≡ self.moment) }
    {
        Load {
            size: self.size,
            moment: self.moment,
        }
    }
}

// Colours one packet and charges it; a red or a refused one leaves the meter as it was.
pub fn colour_packet<M: Meter>(meter: &mut M, arrival: Arrival) -> Result<PacketColour, Refusal>
    ensures value { result ≡ coloured (M.meaning meter.old) arrival }
    ensures after { M.meaning meter.new ≡ left_by (M.meaning meter.old) arrival }
    ensures same { Untouched result meter.old meter.new }
    ensures terms { SameTerms M.meaning meter.old meter.new }
{
    let load = arrival.load();
    let green = meter.ask(load, Colour::Green)?;
    let yellow = meter.ask(load, Colour::Yellow)?;
    let best = arrival.colour.best(green.fits, yellow.fits);
    if let Some(colour) = best {
        meter.charge(load, colour)?;
    }
    Ok(PacketColour::from(best))
}

// Colours a list of packets, one after another; want of memory is found before the first is charged.
pub fn colour_all<M: Meter>(
    heap: Global,
    meter: &mut M,
    arrivals: &[Arrival],
) -> Result<Vec<Result<PacketColour, Refusal>>, AllocError>
    ensures cases { MatchResult result (λ v. Ran M.meaning meter.old meter.new arrivals.now v.items) (λ _. meter.new ≡ meter.old) }
    ensures terms { SameTerms M.meaning meter.old meter.new }
{
    let mut answers = Vec::with_capacity(heap, arrivals.len())?;
    for arrival in arrivals {
        answers.push_reserved(colour_packet(meter, *arrival));
    }
    Ok(answers)
}
