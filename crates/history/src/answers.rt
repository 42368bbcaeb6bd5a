// What a record is answered.
ghost use Rattle.std.specs.Prelude.{◌≡◌};
ghost use Rattle.history.specs.Answers.{number_of};

use meter::measures::Colour;
use paths::layers::Place;

// Why a record is not carried. An enum of its own: the packet's and the capture's refusals have cases that no record is
// answered with.
#[derive(Clone, Copy, PartialEq, Eq, Debug)]
pub enum Refusal {
    // a fraction of a second that is a second or more
    BadFraction,
    // lengths that no record has
    BadLength,
    // as many records offered as can be counted
    TooMany,
    // a moment before the clock
    Backward,
    // fewer bytes captured than the link header has
    ShortFrame,
    // an IPv4 header that is not right, or not wholly captured
    BadHeader,
    // no rule matches
    NoRule,
    // a flow without a row, and no row left
    TableFull,
    // an aware rule, and marked red
    MarkedRed,
    // at that layer, the lowest that does not take the packet yellow, `all` would be lifted over its depth
    OverDepth(Place),
    // at that layer, what is not green would be lifted over the excess depth
    OverExcess(Place),
}

// The colour at which a record is carried, or why it is not.
pub type Answer = Result<Colour, Refusal>;

impl Refusal {
    // The number of each refusal. No discriminants, which a case with a place beside it cannot have.
    pub fn number(self) -> u8
        ensures { result ≡ number_of self }
    {
        match self {
            Refusal::BadFraction => 25,
            Refusal::BadLength => 26,
            Refusal::TooMany => 30,
            Refusal::Backward => 31,
            Refusal::ShortFrame => 32,
            Refusal::BadHeader => 33,
            Refusal::NoRule => 34,
            Refusal::TableFull => 35,
            Refusal::MarkedRed => 36,
            Refusal::OverDepth(_) => 37,
            Refusal::OverExcess(_) => 38,
        }
    }
}
