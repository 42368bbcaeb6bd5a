// Why a word is refused.
ghost use Rattle.std.specs.Prelude.{◌≡◌};
ghost use Rattle.policy_words.specs.declared.causes.Cause.TheVariants.{Form, Range, Refused};
ghost use Rattle.policy_words.specs.Causes.{cause_number};

use crate::numbers::NumberFault;
use kinds::profiles::Fault;
use policy::rules::Refusal;

#[derive(Clone, Copy, PartialEq, Eq, Debug)]
pub enum Cause {
    // it is not of its form, is missing, or is one too many
    Form,
    // a number of a meter that is out of its range
    Range(Fault),
    // a node or a rule that the policy does not take
    Refused(Refusal),
}

impl Cause {
    // The number of each refusal is told here, and stands in one definition.
    pub fn number(self) -> u8
        ensures { result ≡ cause_number self }
    {
        match self {
            Cause::Form => 1,
            Cause::Range(fault) => fault.number(),
            Cause::Refused(refusal) => refusal.number(),
        }
    }
}

impl From<NumberFault> for Cause {
    ghost from_gives = { λ _ r. r ≡ Form };

    fn from(_fault: NumberFault) -> Cause {
        Cause::Form
    }
}

impl From<Fault> for Cause {
    ghost from_gives = { λ e r. r ≡ Range e };

    fn from(fault: Fault) -> Cause {
        Cause::Range(fault)
    }
}

impl From<Refusal> for Cause {
    ghost from_gives = { λ e r. r ≡ Refused e };

    fn from(refusal: Refusal) -> Cause {
        Cause::Refused(refusal)
    }
}
