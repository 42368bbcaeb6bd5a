// What is answered: a verdict for each line, and packets and bytes by colour.
ghost use Rattle.std.specs.Prelude.{◌≡◌};
ghost use Rattle.colour.specs.declared.entries.Rejection.TheVariants.{Refused, Malformed};
ghost use Rattle.colour.specs.declared.entries.Stop.TheVariants.{NoMemory};

use crate::arrivals::LineFault;
use meter::measures::{PacketColour, Refusal};
use std::alloc::{AllocError, AllocFailed};
use std::fmt;
use thiserror::Error;

// Why a line gets no colour.
#[derive(Clone, Copy, PartialEq, Eq, Debug)]
pub enum Rejection {
    // by the meter
    Refused(Refusal),
    // before the meter sees it
    Malformed(LineFault),
}

impl From<Refusal> for Rejection {
    ghost from_gives = { λ refusal rejection. rejection ≡ Refused refusal };

    fn from(refusal: Refusal) -> Rejection {
        Rejection::Refused(refusal)
    }
}

impl From<LineFault> for Rejection {
    ghost from_gives = { λ fault rejection. rejection ≡ Malformed fault };

    fn from(fault: LineFault) -> Rejection {
        Rejection::Malformed(fault)
    }
}

// What a line gets.
pub type Verdict = Result<PacketColour, Rejection>;

// A line's number, counted from 1, and its verdict.
#[derive(Clone, Copy, PartialEq, Eq, Debug)]
pub struct Entry {
    pub number: u64,
    pub verdict: Verdict,
}

// Packets, and their bytes. Not the count of a policer's totals: a sum here is exact, or refused.
#[derive(Clone, Copy, PartialEq, Eq, Debug, Default)]
pub struct Count {
    pub packets: u64,
    pub bytes: u64,
}

// What each colour was given to.
#[derive(Clone, Copy, PartialEq, Eq, Debug, Default)]
pub struct Counts {
    pub green: Count,
    pub yellow: Count,
    pub red: Count,
}

// Why the work stops: the world fails, and no line is answered wrongly.
#[derive(Clone, Copy, PartialEq, Eq, Error)]
pub enum Stop {
    #[error("no memory")]
    NoMemory,
    // a line's number or a sum would pass 2^64 - 1
    #[error("more lines or bytes than can be counted")]
    TooMany,
}

// As it is shown, so that a test that it ends says it in words.
impl fmt::Debug for Stop {
    fn fmt<W: fmt::Write>(&self, f: &mut fmt::Formatter<W>) -> fmt::Result {
        fmt::Display::fmt(self, f)
    }
}

// Each error comes down to the first: `?` asks for an impl of each, and no macro of ours may write them.
impl From<AllocError> for Stop {
    ghost from_gives = { λ _ stop. stop ≡ NoMemory };

    fn from(_: AllocError) -> Stop {
        Stop::NoMemory
    }
}

impl<T: Drop> From<AllocFailed<T>> for Stop {
    ghost from_gives = { λ _ stop. stop ≡ NoMemory };

    fn from(failed: AllocFailed<T>) -> Stop {
        AllocError::from(failed).into()
    }
}

// A text is full only where memory is wanting.
impl From<fmt::Error> for Stop {
    ghost from_gives = { λ _ stop. stop ≡ NoMemory };

    fn from(_: fmt::Error) -> Stop {
        AllocError.into()
    }
}
