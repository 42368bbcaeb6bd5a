// The one interface of every kind of meter.
ghost use Rattle.std.specs.Prelude.{◌≡◌};
ghost use Rattle.meter.specs.declared.measures.State.{State};
ghost use Rattle.meter.specs.Rules.{asked, fits_in, Charged, SameTerms, Sound, terms_of};

use crate::measures::{Colour, Fit, Load, Refusal, State, Terms};

// A kind of meter says what its numbers stand for, and gives `state` and `store`; the rest is written here, once.
// The definitions take a load apart: the documents' own steps are over numbers, and know no load.
pub trait Meter {
    // What the numbers of a meter stand for, whatever they are.
    ghost meaning: { Self → State };

    fn state(&self) -> State
        ensures { result ≡ meaning self.now };

    // Takes over the fills and moments of a sound state with this meter's terms. Given any other state only the terms
    // are promised.
    fn store(&mut self, state: State)
        ensures after { terms_of state ≡ terms_of (meaning self.old) → Sound state → meaning self.new ≡ state }
        ensures terms { SameTerms meaning self.old self.new };

    fn terms(&self) -> Terms
        ensures { result ≡ terms_of (meaning self.now) }
    {
        self.state().terms()
    }

    fn ask(&self, load: Load, colour: Colour) -> Result<Fit, Refusal>
        ensures { result ≡ asked (meaning self.now) load.size.0 load.moment.0 colour }
    {
        self.state().ask(load, colour)
    }

    // What is refused does not fit.
    fn fits(&self, load: Load, colour: Colour) -> bool
        ensures { result ≡ fits_in (asked (meaning self.now) load.size.0 load.moment.0 colour) }
    {
        self.ask(load, colour).is_ok_and(|fit| fit.fits)
    }

    fn charge(&mut self, load: Load, colour: Colour) -> Result<(), Refusal>
        ensures charged { Charged meaning self.old self.new load.size.0 load.moment.0 colour result }
        ensures terms { SameTerms meaning self.old self.new }
    {
        let next = self.state().charge(load, colour)?;
        self.store(next);
        Ok(())
    }

    // No bucket is above its depth and each leaks; with an excess depth both leak alike.
    ghost sound: { (m : Self) → Sound (meaning m) };
}
