// The measures and the plain structs of a meter. No sum joins two measures: a number leaves its measure only at `.0`.

// Microseconds since the epoch.
#[derive(Clone, Copy, Default, PartialEq, Eq, PartialOrd, Ord, Debug)]
pub struct Moment(pub u64);

// A packet's size in bytes.
#[derive(Clone, Copy, PartialEq, Eq, PartialOrd, Ord, Debug)]
pub struct Size(pub u32);

// Millionths of a byte: a rate of R bytes a second leaks R of them a microsecond.
#[derive(Clone, Copy, Default, PartialEq, Eq, PartialOrd, Ord, Debug)]
pub struct Grains(pub u64);

// The colours at which a packet can be carried, and charged.
#[derive(Clone, Copy, PartialEq, Eq, Debug)]
pub enum Colour {
    Green,
    Yellow,
}

// The colours of packets and of marks: a packet's as it arrives, and as a meter alone leaves it. An enum and no option
// of a `Colour`, since red has a name.
#[derive(Clone, Copy, PartialEq, Eq, Debug)]
pub enum PacketColour {
    Green,
    Yellow,
    Red,
}

// Whether the colour with which a packet arrives is read, or every packet is taken as green.
#[derive(Clone, Copy, PartialEq, Eq, Debug)]
pub enum Mode {
    Blind,
    Aware,
}

// A packet as the meters see it.
#[derive(Clone, Copy, PartialEq, Eq, Debug)]
pub struct Load {
    pub size: Size,
    pub moment: Moment,
}

// A packet before a meter. Flat, as a line of arrivals is written: moment, size, colour; the meters' part is `load()`.
#[derive(Clone, Copy, PartialEq, Eq, Debug)]
pub struct Arrival {
    pub moment: Moment,
    pub size: Size,
    pub colour: PacketColour,
}

// What a meter refuses.
#[derive(Clone, Copy, PartialEq, Eq, Debug)]
pub enum Refusal {
    // no bytes, or more than the largest size
    BadSize,
    // past the largest moment
    BadMoment,
    // before the meter's last charge
    Backward,
    // the colour does not fit
    Unfit,
}

// What asking answers: whether the colour fits, and whether the cost would lift `all` over its depth.
#[derive(Clone, Copy, PartialEq, Eq, Debug)]
pub struct Fit {
    pub fits: bool,
    pub over: bool,
}

// A bucket's terms: grains that leak each microsecond, and the most that it holds.
#[derive(Clone, Copy, PartialEq, Eq, Debug)]
pub struct Limit {
    pub rate: u64,
    pub depth: Grains,
}

// A leaky bucket: its terms, its fill just after its last charge, and the moment of that.
#[derive(Clone, Copy, PartialEq, Eq, Debug)]
pub struct Bucket {
    pub limit: Limit,
    pub fill: Grains,
    pub last: Moment,
}

// What never changes in a meter. A packet of n bytes costs base + per_byte × n.
#[derive(Clone, Copy, PartialEq, Eq, Debug)]
pub struct Terms {
    pub base: Grains,
    pub per_byte: Grains,
    pub all: Limit,
    pub green: Option<Limit>,
    pub excess: Option<Grains>,
}

// A meter as it stands, and so the meaning of every kind of meter. `all` counts every packet charged, `green` the
// green ones; with an excess depth, `all` holds at most that much beyond `green`.
#[derive(Clone, Copy, PartialEq, Eq, Debug)]
pub struct State {
    pub base: Grains,
    pub per_byte: Grains,
    pub all: Bucket,
    pub green: Option<Bucket>,
    pub excess: Option<Grains>,
}
