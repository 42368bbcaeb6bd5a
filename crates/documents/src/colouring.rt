// A fresh meter over a list of packets, which it colours as its document says.
ghost use Rattle.std.specs.Prelude.{◌≡◌, IfOk, MatchResult};
ghost use Rattle.documents.specs.Fresh.{seen, Coloured, Uncoloured};
ghost use Rattle.documents.specs.declared.colouring.Unrun.TheVariants.{Unmade, NoMemory};

use kinds::profiles::{AnyMeter, Fault, Profile};
use meter::alone::colour_all;
use meter::measures::{Arrival, Mode, PacketColour, Refusal};
use std::alloc::{AllocError, Global};

// Why no list of packets was coloured.
#[derive(Clone, Copy, PartialEq, Eq, Debug)]
pub enum Unrun {
    Unmade(Fault),
    NoMemory,
}

impl From<Fault> for Unrun {
    ghost from_gives = { λ fault r. r ≡ Unmade fault };

    fn from(fault: Fault) -> Unrun {
        Unrun::Unmade(fault)
    }
}

impl From<AllocError> for Unrun {
    ghost from_gives = { λ _ r. r ≡ NoMemory };

    fn from(_: AllocError) -> Unrun {
        Unrun::NoMemory
    }
}

fn all_seen(heap: Global, mode: Mode, arrivals: &[Arrival]) -> Result<Vec<Arrival>, AllocError>
    ensures { IfOk result (λ v. v.items ≡ seen mode arrivals.now) }
{
    let packets = arrivals.iter().map(|arrival| Arrival {
        colour: mode.sees(arrival.colour),
        ..*arrival
    });
    packets.collect(heap)
}

// The colours of a list of packets at an unused meter.
pub fn colour_fresh(
    heap: Global,
    mode: Mode,
    profile: Profile,
    arrivals: &[Arrival],
) -> Result<Vec<Result<PacketColour, Refusal>>, Unrun>
    ensures { MatchResult result (λ v. Coloured mode profile arrivals.now v.items) (λ e. Uncoloured profile e) }
{
    let mut meter = AnyMeter::new(profile)?;
    let packets = all_seen(heap, mode, arrivals)?;
    Ok(colour_all(heap, &mut meter, &packets)?)
}
