// From what is bought to the unused meter: the range of each number, then the row of the table.
ghost use Rattle.std.specs.Prelude.{◌≡◌, IfOk};
ghost use Rattle.kinds.specs.Kinds.{gcra_meaning, token_meaning, single_meaning, two_meaning, any_meaning};
ghost use Rattle.kinds.specs.Making.{fault_number, within, rate_of, tolerance_of, burst_of, loose_burst_of, excess_of, peak_of, made, meant, word_of, word_bought};
ghost use Rattle.kinds.specs.declared.profiles.Profile.TheVariants.{Vs, Tb, Sr, Tr};

use crate::kinds::GRAINS_A_MICROSECOND;
use crate::profiles::{
    AnyMeter, Fault, Gcra, Level, Levels, Profile, SingleRate, TokenBucket, TwoRate,
};
use meter::measures::Grains;

// The largest interval, rate or burst.
pub const LARGEST: u32 = 1_000_000_000;

pub const LARGEST_TOLERANCE: u64 = 1_000_000_000_000;

impl Fault {
    pub fn number(self) -> u8
        ensures { result ≡ fault_number self }
    {
        match self {
            Fault::BadRate => 2,
            Fault::BadDepth => 3,
            Fault::PeakBelowCommitted => 4,
        }
    }
}

// A number in its range.
fn in_range(n: u64, least: u64, most: u64, fault: Fault) -> Result<u64, Fault>
    ensures { result ≡ within least most fault n }
{
    if (least..=most).contains(&n) {
        Ok(n)
    } else {
        Err(fault)
    }
}

// The same, of a range that keeps to 32 bits.
fn in_short_range(n: u64, least: u64, most: u32, fault: Fault) -> Result<u32, Fault>
    ensures { result ≡ within least most fault n }
{
    in_range(n, least, u64::from(most), fault).map(|n| n as u32)
}

// An interval, or a rate.
pub fn rate(n: u64) -> Result<u32, Fault>
    ensures { result ≡ rate_of n }
{
    in_short_range(n, 1, LARGEST, Fault::BadRate)
}

pub fn tolerance(n: u64) -> Result<u64, Fault>
    ensures { result ≡ tolerance_of n }
{
    in_range(n, 0, LARGEST_TOLERANCE, Fault::BadDepth)
}

// A burst that must be something.
pub fn burst(n: u64) -> Result<u32, Fault>
    ensures { result ≡ burst_of n }
{
    in_short_range(n, 1, LARGEST, Fault::BadDepth)
}

// A burst that may be nothing.
pub fn loose_burst(n: u64) -> Result<u32, Fault>
    ensures { result ≡ loose_burst_of n }
{
    in_short_range(n, 0, LARGEST, Fault::BadDepth)
}

// The excess burst behind a committed one: one of the two must be something.
pub fn excess(cbs: u32, ebs: u64) -> Result<u32, Fault>
    ensures { result ≡ excess_of cbs ebs }
{
    if cbs == 0 && ebs == 0 {
        return Err(Fault::BadDepth);
    }
    loose_burst(ebs)
}

// The peak rate behind a committed one: in range first, then no lower.
pub fn peak(cir: u32, pir: u64) -> Result<u32, Fault>
    ensures { result ≡ peak_of cir pir }
{
    let peak = rate(pir)?;
    if peak < cir {
        return Err(Fault::PeakBelowCommitted);
    }
    Ok(peak)
}

impl Gcra {
    pub fn new(interval: u64, limit: u64) -> Result<Gcra, Fault>
        ensures { meant gcra_meaning result ≡ made (Vs interval limit) }
    {
        let interval = u64::from(rate(interval)?);
        let limit = tolerance(limit)?;
        Ok(Gcra {
            increment: Grains(interval * GRAINS_A_MICROSECOND),
            depth: Grains((interval + limit) * GRAINS_A_MICROSECOND),
            all: Level::default(),
        })
    }
}

impl TokenBucket {
    pub fn new(r: u64, b: u64) -> Result<TokenBucket, Fault>
        ensures { meant token_meaning result ≡ made (Tb r b) }
    {
        Ok(TokenBucket {
            rate: rate(r)?,
            burst: burst(b)?,
            all: Level::default(),
        })
    }
}

impl SingleRate {
    pub fn new(cir: u64, cbs: u64, ebs: u64) -> Result<SingleRate, Fault>
        ensures { meant single_meaning result ≡ made (Sr cir cbs ebs) }
    {
        let cir = rate(cir)?;
        let cbs = loose_burst(cbs)?;
        let ebs = excess(cbs, ebs)?;
        Ok(SingleRate {
            cir,
            cbs,
            ebs,
            levels: Levels::default(),
        })
    }
}

impl TwoRate {
    pub fn new(cir: u64, cbs: u64, pir: u64, pbs: u64) -> Result<TwoRate, Fault>
        ensures { meant two_meaning result ≡ made (Tr cir cbs pir pbs) }
    {
        let cir = rate(cir)?;
        let cbs = burst(cbs)?;
        let pir = peak(cir, pir)?;
        let pbs = burst(pbs)?;
        Ok(TwoRate {
            cir,
            cbs,
            pir,
            pbs,
            levels: Levels::default(),
        })
    }
}

impl AnyMeter {
    pub fn new(profile: Profile) -> Result<AnyMeter, Fault>
        ensures value { meant any_meaning result ≡ made profile }
        ensures kind { IfOk result (λ m. word_of m ≡ word_bought profile) }
    {
        match profile {
            Profile::Vs {
                interval,
                tolerance,
            } => Gcra::new(interval, tolerance).map(AnyMeter::Vs),
            Profile::Lb {
                interval,
                tolerance,
            } => Gcra::new(interval, tolerance).map(AnyMeter::Lb),
            Profile::Tb { rate, burst } => TokenBucket::new(rate, burst).map(AnyMeter::Tb),
            Profile::Sr { cir, cbs, ebs } => SingleRate::new(cir, cbs, ebs).map(AnyMeter::Sr),
            Profile::Tr { cir, cbs, pir, pbs } => TwoRate::new(cir, cbs, pir, pbs).map(
                AnyMeter::Tr,
            ),
        }
    }
}
