// The rule of a meter, once for every kind: what a packet costs, whether it fits, and its charge.
ghost use Rattle.std.specs.Prelude.{◌≡◌, ◌-◌, ◌≤◌, Ok};
ghost use Rattle.meter.specs.Rules.{level, green_level, cost, in_grains, fits_by, unless, asked, charged, terms_of, number_of};

use crate::measures::{Colour, Fit, Grains, Load, Moment, Refusal, Size, State, Terms};

pub const LARGEST_SIZE: u32 = 65_535;

pub const LARGEST_MOMENT: u64 = 4_294_967_295_999_999;

impl Refusal {
    pub fn number(self) -> u8
        ensures { result ≡ number_of self }
    {
        match self {
            Refusal::BadSize => 10,
            Refusal::BadMoment => 11,
            Refusal::Backward => 12,
            Refusal::Unfit => 13,
        }
    }
}

impl Terms {
    // None where it is more than any bucket can hold.
    pub(crate) fn cost(self, size: Size) -> Option<Grains>
        ensures { result ≡ in_grains (cost self size.0) }
    {
        let bytes = self.per_byte.0.checked_mul(u64::from(size.0))?;
        self.base.0.checked_add(bytes).map(Grains)
    }
}

impl State {
    pub(crate) fn terms(self) -> Terms
        ensures { result ≡ terms_of self }
    {
        Terms {
            base: self.base,
            per_byte: self.per_byte,
            all: self.all.limit,
            green: self.green.map(|g| g.limit),
            excess: self.excess,
        }
    }

    // Whether the size and the moment may be asked about.
    fn admits(self, load: Load) -> Result<(), Refusal>
        ensures { result ≡ unless self load.size.0 load.moment.0 (Ok tt) }
    {
        if !(1..=LARGEST_SIZE).contains(&load.size.0) {
            return Err(Refusal::BadSize);
        }
        if load.moment.0 > LARGEST_MOMENT {
            return Err(Refusal::BadMoment);
        }
        if load.moment < self.all.last {
            return Err(Refusal::Backward);
        }
        Ok(())
    }

    // What `all` holds beyond `green`.
    fn beyond(self, moment: Moment) -> Grains
        ensures { result.0 ≡ level self.all moment.0 - green_level self.green moment.0 }
    {
        let green = self.green.map_or(Grains(0), |g| g.fill_at(moment));
        Grains(self.all.fill_at(moment).0.saturating_sub(green.0))
    }

    fn fits(self, cost: Grains, moment: Moment, colour: Colour) -> bool
        ensures { result ≡ fits_by (terms_of self) (level self.all moment.0) (green_level self.green moment.0) cost.0 colour }
    {
        self.all.has_room(moment, cost)
            && match colour {
                Colour::Green => self.green.is_none_or(|g| g.has_room(moment, cost)),
                Colour::Yellow => self
                    .excess
                    .is_none_or(|e| self.beyond(moment).fits_with(cost, e)),
            }
    }

    pub(crate) fn ask(self, load: Load, colour: Colour) -> Result<Fit, Refusal>
        ensures { result ≡ asked self load.size.0 load.moment.0 colour }
    {
        self.admits(load)?;
        let Some(cost) = self.terms().cost(load.size) else {
            return Ok(Fit {
                fits: false,
                over: true,
            });
        };
        Ok(Fit {
            fits: self.fits(cost, load.moment, colour),
            over: !self.all.has_room(load.moment, cost),
        })
    }

    pub(crate) fn charge(self, load: Load, colour: Colour) -> Result<State, Refusal>
        ensures { result ≡ charged self load.size.0 load.moment.0 colour }
    {
        self.admits(load)?;
        let cost = self.terms().cost(load.size).ok_or(Refusal::Unfit)?;
        if !self.fits(cost, load.moment, colour) {
            return Err(Refusal::Unfit);
        }
        let green = match (colour, self.green) {
            (Colour::Green, Some(g)) => Some(g.charged(load.moment, cost)),
            (_, green) => green,
        };
        Ok(State {
            all: self.all.charged(load.moment, cost),
            green,
            ..self
        })
    }
}
