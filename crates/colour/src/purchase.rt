// The meter that words buy.
ghost use Rattle.std.specs.Prelude.{◌≡◌, ℕ, Result};
ghost use Rattle.colour.specs.declared.purchase.Cause.TheVariants.{Range};
ghost use Rattle.kinds.specs.declared.profiles.Fault.{Fault};
ghost use Rattle.colour.specs.Purchase.{kind_named, word_of, cause_number, malformed, Computes, checked_at, end_at, two_of, single_of, double_of, profile_of, Bought};

use crate::words::number;
use kinds::making::{burst, excess, loose_burst, peak, rate, tolerance};
use kinds::profiles::{AnyMeter, Fault, Profile};

// A kind of meter, by its name.
#[derive(Clone, Copy, PartialEq, Eq, Debug)]
pub enum Kind {
    Vs,
    Lb,
    Tb,
    Sr,
    Tr,
}

// What a word can stand for: a kind's name, a number.
#[derive(Clone, Copy, PartialEq, Eq, Debug)]
pub struct Word {
    pub kind: Option<Kind>,
    pub number: Option<u64>,
}

// Why a word is refused: it is missing, extra, or neither name nor number; or the number is out of range.
#[derive(Clone, Copy, PartialEq, Eq, Debug)]
pub enum Cause {
    Form,
    Range(Fault),
}

// The word of a meter that is refused, counted from 1.
#[derive(Clone, Copy, PartialEq, Eq, Debug)]
pub struct WordFault {
    pub word: usize,
    pub cause: Cause,
}

impl Cause {
    // The number that is printed. No discriminant: a fault has the number of its kind.
    pub fn number(self) -> u8
        ensures { result ≡ cause_number self }
    {
        match self {
            Cause::Form => 1,
            Cause::Range(fault) => fault.number(),
        }
    }
}

impl From<Fault> for Cause {
    ghost from_gives = { λ fault cause. cause ≡ Range fault };

    fn from(fault: Fault) -> Cause {
        Cause::Range(fault)
    }
}

impl Word {
    // What a text can stand for. No `From`: a text that is neither name nor number would be lost in it.
    pub fn read(text: &[u8]) -> Word
        ensures { result ≡ word_of text.now }
    {
        Word {
            kind: kind_named(text),
            number: number(text),
        }
    }
}

// No `TryFrom`: its error would say nothing, and a word keeps the Option.
fn kind_named(word: &[u8]) -> Option<Kind>
    ensures { result ≡ kind_named word.now }
{
    match word {
        b"vs" => Some(Kind::Vs),
        b"lb" => Some(Kind::Lb),
        b"tb" => Some(Kind::Tb),
        b"sr" => Some(Kind::Sr),
        b"tr" => Some(Kind::Tr),
        _ => None,
    }
}

fn form(word: usize) -> WordFault
    ensures { result ≡ malformed word }
{
    WordFault {
        word,
        cause: Cause::Form,
    }
}

// The number at an index, as a check passes it; a missing word is no number.
fn amount<T, F: FnOnce(u64) -> Result<T, Fault>>(
    words: &[Word],
    i: u8,
    check: F,
) -> Result<T, WordFault>
    requires { F.IsAlwaysCallable check }
    ensures { (f : ℕ → Result T Fault) → Computes (F.post check) f → result ≡ checked_at words.now i f }
{
    let at = usize::from(i);
    let number = words
        .get(at)
        .and_then(|word| word.number)
        .ok_or(form(at + 1))?;
    check(number).map_err(|fault| WordFault {
        word: at + 1,
        cause: fault.into(),
    })
}

// No word stands at an index.
fn ended(words: &[Word], i: u8) -> Result<(), WordFault>
    ensures { result ≡ end_at words.now i }
{
    let at = usize::from(i);
    if words.len() > at {
        return Err(form(at + 1));
    }
    Ok(())
}

// Two numbers and no more: an interval or a rate, and one that a check passes.
fn read_two<T: Drop, F: FnOnce(u64) -> Result<T, Fault>>(
    words: &[Word],
    check: F,
) -> Result<(u64, T), WordFault>
    requires { F.IsAlwaysCallable check }
    ensures { (f : ℕ → Result T Fault) → Computes (F.post check) f → result ≡ two_of f words.now }
{
    let first = amount(words, 1, rate)?;
    let second = amount(words, 2, check)?;
    ended(words, 3)?;
    Ok((u64::from(first), second))
}

fn read_sr(words: &[Word]) -> Result<Profile, WordFault>
    ensures { result ≡ single_of words.now }
{
    let cir = amount(words, 1, rate)?;
    let cbs = amount(words, 2, loose_burst)?;
    let ebs = amount(words, 3, |ebs| excess(cbs, ebs))?;
    ended(words, 4)?;
    Ok(Profile::Sr {
        cir: u64::from(cir),
        cbs: u64::from(cbs),
        ebs: u64::from(ebs),
    })
}

fn read_tr(words: &[Word]) -> Result<Profile, WordFault>
    ensures { result ≡ double_of words.now }
{
    let cir = amount(words, 1, rate)?;
    let cbs = amount(words, 2, burst)?;
    let pir = amount(words, 3, |pir| peak(cir, pir))?;
    let pbs = amount(words, 4, burst)?;
    ended(words, 5)?;
    Ok(Profile::Tr {
        cir: u64::from(cir),
        cbs: u64::from(cbs),
        pir: u64::from(pir),
        pbs: u64::from(pbs),
    })
}

fn read_profile(words: &[Word]) -> Result<Profile, WordFault>
    ensures { result ≡ profile_of words.now }
{
    let kind = words.first().and_then(|word| word.kind).ok_or(form(1))?;
    match kind {
        Kind::Vs => read_two(words, tolerance).map(|(interval, tolerance)| Profile::Vs {
            interval,
            tolerance,
        }),
        Kind::Lb => read_two(words, tolerance).map(|(interval, tolerance)| Profile::Lb {
            interval,
            tolerance,
        }),
        Kind::Tb => read_two(words, burst).map(|(rate, burst)| Profile::Tb {
            rate,
            burst: u64::from(burst),
        }),
        Kind::Sr => read_sr(words),
        Kind::Tr => read_tr(words),
    }
}

// The unused meter that words buy, or the first word at fault.
pub fn buy(words: &[Word]) -> Result<AnyMeter, WordFault>
    ensures { Bought words.now result }
{
    let profile = read_profile(words)?;
    Ok(AnyMeter::new(profile).unwrap())
}
