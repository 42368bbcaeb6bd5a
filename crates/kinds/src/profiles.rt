// What can be bought, and the plain numbers that each kind of meter holds.
use meter::measures::{Grains, Moment};

// A meter as it is bought. Intervals and tolerances are microseconds, rates bytes a second, bursts bytes.
#[derive(Clone, Copy, PartialEq, Eq, Debug)]
pub enum Profile {
    // GCRA by virtual scheduling
    Vs {
        interval: u64,
        tolerance: u64,
    },
    // GCRA by the continuous-state leaky bucket
    Lb {
        interval: u64,
        tolerance: u64,
    },
    // a token bucket
    Tb {
        rate: u64,
        burst: u64,
    },
    // the single rate three colour marker
    Sr {
        cir: u64,
        cbs: u64,
        ebs: u64,
    },
    // the two rate three colour marker
    Tr {
        cir: u64,
        cbs: u64,
        pir: u64,
        pbs: u64,
    },
}

// Why a profile makes no meter.
#[derive(Clone, Copy, PartialEq, Eq, Debug)]
pub enum Fault {
    // an interval or a rate out of range
    BadRate,
    // a tolerance or a burst out of range, or no burst at all
    BadDepth,
    // a peak rate below the committed one
    PeakBelowCommitted,
}

// What runs in a bucket: its fill just after its last charge, and the moment of that.
#[derive(Clone, Copy, Default, PartialEq, Eq, Debug)]
pub struct Level {
    pub fill: Grains,
    pub last: Moment,
}

// What runs in a meter of two buckets.
#[derive(Clone, Copy, Default, PartialEq, Eq, Debug)]
pub struct Levels {
    pub all: Level,
    pub green: Level,
}

// The generic cell rate algorithm, in either of its forms: each packet costs the increment, one grain leaks a microsecond.
#[derive(Clone, Copy, PartialEq, Eq, Debug)]
pub struct Gcra {
    pub increment: Grains,
    pub depth: Grains,
    pub all: Level,
}

#[derive(Clone, Copy, PartialEq, Eq, Debug)]
pub struct TokenBucket {
    pub rate: u32,
    pub burst: u32,
    pub all: Level,
}

#[derive(Clone, Copy, PartialEq, Eq, Debug)]
pub struct SingleRate {
    pub cir: u32,
    pub cbs: u32,
    pub ebs: u32,
    pub levels: Levels,
}

#[derive(Clone, Copy, PartialEq, Eq, Debug)]
pub struct TwoRate {
    pub cir: u32,
    pub cbs: u32,
    pub pir: u32,
    pub pbs: u32,
    pub levels: Levels,
}

// A meter of any of the five kinds, for a mixture of them.
#[derive(Clone, Copy, PartialEq, Eq, Debug)]
pub enum AnyMeter {
    Vs(Gcra),
    Lb(Gcra),
    Tb(TokenBucket),
    Sr(SingleRate),
    Tr(TwoRate),
}
