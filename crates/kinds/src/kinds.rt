// Each kind of meter behind the one interface: what its numbers stand for, and what it takes over.
ghost use Rattle.std.specs.Prelude.{◌≡◌, ◌*◌, IfSome};
ghost use Rattle.kinds.specs.Kinds.{grains_a_byte, held, gcra_meaning, token_meaning, single_meaning, two_meaning, any_meaning};
ghost use Rattle.std.proofs.Common.{rules};

use crate::profiles::{AnyMeter, Gcra, Level, Levels, SingleRate, TokenBucket, TwoRate};
use meter::measures::{Bucket, Grains, Limit, State};
use meter::metering::Meter;

// The one place that says how many grains a byte has, and an interval's microsecond.
pub const GRAINS_A_BYTE: u64 = 1_000_000;

pub const GRAINS_A_MICROSECOND: u64 = 1;

fn bytes(n: u32) -> Grains
    ensures { result.0 ≡ n * grains_a_byte }
{
    Grains(u64::from(n) * GRAINS_A_BYTE)
}

impl Level {
    // Tables hold numbers of any content: a rate of 0 stands for 1, a fill above the depth for the depth.
    fn held(self, rate: u64, depth: Grains) -> Bucket
        ensures { result ≡ held rate depth.0 self }
    {
        Bucket {
            limit: Limit {
                rate: rate.max(1),
                depth,
            },
            fill: self.fill.min(depth),
            last: self.last,
        }
    }
}

// What runs in a bucket, without its terms.
impl From<Bucket> for Level {
    ghost from_gives = { λ bucket level. (level.fill ≡ bucket.fill) × (level.last ≡ bucket.last) };

    fn from(bucket: Bucket) -> Level {
        Level {
            fill: bucket.fill,
            last: bucket.last,
        }
    }
}

impl Levels {
    fn take_over(&mut self, state: State)
        ensures all { (self.new.all.fill ≡ state.all.fill) × (self.new.all.last ≡ state.all.last) }
        ensures green { IfSome state.green (λ g. (self.new.green.fill ≡ g.fill) × (self.new.green.last ≡ g.last)) }
    {
        self.all = Level::from(state.all);
        if let Some(green) = state.green {
            self.green = Level::from(green);
        }
    }
}

// Two kinds have one bucket and two have two, and each `store` is one line: a trait of their levels would be longer.
impl Meter for Gcra {
    ghost meaning = { gcra_meaning };

    ghost sound = { Prim.search rules };

    fn state(&self) -> State {
        State {
            base: self.increment,
            per_byte: Grains(0),
            all: self.all.held(1, self.depth),
            green: None,
            excess: None,
        }
    }

    fn store(&mut self, state: State) {
        self.all = Level::from(state.all);
    }
}

impl Meter for TokenBucket {
    ghost meaning = { token_meaning };

    ghost sound = { Prim.search rules };

    fn state(&self) -> State {
        State {
            base: Grains(0),
            per_byte: bytes(1),
            all: self.all.held(u64::from(self.rate), bytes(self.burst)),
            green: None,
            excess: None,
        }
    }

    fn store(&mut self, state: State) {
        self.all = Level::from(state.all);
    }
}

impl Meter for SingleRate {
    ghost meaning = { single_meaning };

    ghost sound = { Prim.search rules };

    fn state(&self) -> State {
        let cir = u64::from(self.cir);
        let cbs = bytes(self.cbs);
        let ebs = bytes(self.ebs);
        State {
            base: Grains(0),
            per_byte: bytes(1),
            all: self.levels.all.held(cir, Grains(cbs.0 + ebs.0)),
            green: Some(self.levels.green.held(cir, cbs)),
            excess: Some(ebs),
        }
    }

    fn store(&mut self, state: State) {
        self.levels.take_over(state);
    }
}

impl Meter for TwoRate {
    ghost meaning = { two_meaning };

    ghost sound = { Prim.search rules };

    fn state(&self) -> State {
        State {
            base: Grains(0),
            per_byte: bytes(1),
            all: self.levels.all.held(u64::from(self.pir), bytes(self.pbs)),
            green: Some(self.levels.green.held(u64::from(self.cir), bytes(self.cbs))),
            excess: None,
        }
    }

    fn store(&mut self, state: State) {
        self.levels.take_over(state);
    }
}

impl Meter for AnyMeter {
    ghost meaning = { any_meaning };

    ghost sound = { Prim.search rules };

    // An enum and no `dyn`: tables hold meters of any kind by value, and nothing may lend a `dyn` out of them.
    fn state(&self) -> State {
        match self {
            AnyMeter::Vs(m) | AnyMeter::Lb(m) => m.state(),
            AnyMeter::Tb(m) => m.state(),
            AnyMeter::Sr(m) => m.state(),
            AnyMeter::Tr(m) => m.state(),
        }
    }

    fn store(&mut self, state: State) {
        // An arm for each kind: behind a pattern of two, what the call leaves is not found in the proof.
        match self {
            AnyMeter::Vs(m) => m.store(state),
            AnyMeter::Lb(m) => m.store(state),
            AnyMeter::Tb(m) => m.store(state),
            AnyMeter::Sr(m) => m.store(state),
            AnyMeter::Tr(m) => m.store(state),
        }
    }
}
