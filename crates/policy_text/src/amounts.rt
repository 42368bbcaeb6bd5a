// The numbers of a meter's words: each is of the form of a number, and then in its range.
ghost use Rattle.std.specs.Prelude.{◌≡◌};
ghost use Rattle.policy_words.specs.Words.{Reads};
ghost use Rattle.policy_text.specs.Amounts.{passed, check_of, amount_of};

use kinds::making::{burst, excess, loose_burst, peak, rate, tolerance};
use kinds::profiles::Fault;
use policy_words::causes::Cause;
use policy_words::words::count;

// What a number of a meter has to be. An enum and no closure: a call of what is handed in would have a premise.
#[derive(Clone, Copy, PartialEq, Eq, Debug)]
pub enum Amount {
    // an interval or a rate
    Rate,
    Tolerance,
    // a burst that must be something
    Burst,
    // a burst that may be nothing
    LooseBurst,
    // the excess burst behind this committed one
    Excess(u32),
    // the peak rate behind this committed one
    Peak(u32),
}

fn passed<T: Drop>(checked: Result<T, Fault>) -> Result<(), Fault>
    ensures { result ≡ passed checked }
{
    checked.map(|_| ())
}

impl Amount {
    pub fn check(self, number: u64) -> Result<(), Fault>
        ensures { result ≡ passed (check_of self number) }
    {
        match self {
            Amount::Rate => passed(rate(number)),
            Amount::Tolerance => passed(tolerance(number)),
            Amount::Burst => passed(burst(number)),
            Amount::LooseBurst => passed(loose_burst(number)),
            Amount::Excess(cbs) => passed(excess(cbs, number)),
            Amount::Peak(cir) => passed(peak(cir, number)),
        }
    }
}

// The next word, a number that is such an amount.
#[tactic(auto, unfolding(crate::specs::Amounts::amount_of), using(crate::proofs::Checks::passed_within))]
pub fn amount_word(text: &[u8], amount: Amount) -> Result<(u64, &[u8]), Cause>
    ensures { Reads result (amount_of (check_of amount) text.now) }
{
    let (value, rest) = count(text)?;
    amount.check(value).map_err(Cause::Range)?;
    Ok((value, rest))
}
