// The words of a meter, which end a line.
ghost use Rattle.std.specs.Prelude.{◌≡◌, ◌<◌, IfOk, Ok};
ghost use Rattle.policy_words.specs.Words.{Reads};
ghost use Rattle.policy_text.specs.Amounts.{check_of};
ghost use Rattle.policy_text.specs.Meters.{two_of, last_two_of, single_of, two_rate_of, meter_of};

use crate::amounts::{Amount, amount_word};
use crate::lines::{LineFault, at};
use kinds::profiles::Profile;
use policy_words::words::{ended, keyword};

// Two amounts, the first of them the word of that place. No struct of a text and its place: each step counts one word on,
// so that nothing in the type would bound it, and the `requires` would stay.
#[tactic(auto, unfolding(crate::specs::Meters::two_of))]
fn two(
    text: &[u8],
    word: u8,
    first: Amount,
    second: Amount,
) -> Result<((u64, u64), &[u8]), LineFault>
    requires { word < 100 }
    ensures value { Reads result (two_of word (check_of first) (check_of second) text.now) }
    ensures within { IfOk result (λ p. (check_of first p.0.0 ≡ Ok p.0.0) × (check_of second p.0.1 ≡ Ok p.0.1)) }
{
    let (a, rest) = at(word, amount_word(text, first))?;
    let (b, rest) = at(word + 1, amount_word(rest, second))?;
    Ok(((a, b), rest))
}

// The same, at the end of the line.
#[tactic(auto, unfolding(crate::specs::Meters::last_two_of))]
fn last_two(text: &[u8], word: u8, first: Amount, second: Amount) -> Result<(u64, u64), LineFault>
    requires { word < 100 }
    ensures { result ≡ last_two_of word (check_of first) (check_of second) text.now }
{
    let (pair, rest) = two(text, word, first, second)?;
    at(word + 2, ended(rest))?;
    Ok(pair)
}

// CIR, CBS and EBS.
#[tactic(auto, unfolding(crate::specs::Meters::single_of))]
fn single_rate(text: &[u8], word: u8) -> Result<Profile, LineFault>
    requires { word < 100 }
    ensures { result ≡ single_of word text.now }
{
    let ((cir, cbs), rest) = two(text, word, Amount::Rate, Amount::LooseBurst)?;
    let (ebs, rest) = at(word + 2, amount_word(rest, Amount::Excess(cbs as u32)))?;
    at(word + 3, ended(rest))?;
    Ok(Profile::Sr { cir, cbs, ebs })
}

// CIR, CBS, PIR and PBS.
#[tactic(auto, unfolding(crate::specs::Meters::two_rate_of))]
fn two_rate(text: &[u8], word: u8) -> Result<Profile, LineFault>
    requires { word < 98 }
    ensures { result ≡ two_rate_of word text.now }
{
    let ((cir, cbs), rest) = two(text, word, Amount::Rate, Amount::Burst)?;
    let (pir, pbs) = last_two(rest, word + 2, Amount::Peak(cir as u32), Amount::Burst)?;
    Ok(Profile::Tr { cir, cbs, pir, pbs })
}

// What the words from that place on buy, all numbers in range.
#[tactic(auto, unfolding(crate::specs::Meters::meter_of))]
pub(crate) fn read_meter(text: &[u8], word: u8) -> Result<Profile, LineFault>
    requires { word < 90 }
    ensures { result ≡ meter_of word text.now }
{
    if let Ok(rest) = keyword(text, b" vs") {
        let (interval, tolerance) = last_two(rest, word + 1, Amount::Rate, Amount::Tolerance)?;
        return Ok(Profile::Vs {
            interval,
            tolerance,
        });
    }
    if let Ok(rest) = keyword(text, b" lb") {
        let (interval, tolerance) = last_two(rest, word + 1, Amount::Rate, Amount::Tolerance)?;
        return Ok(Profile::Lb {
            interval,
            tolerance,
        });
    }
    if let Ok(rest) = keyword(text, b" tb") {
        let (rate, burst) = last_two(rest, word + 1, Amount::Rate, Amount::Burst)?;
        return Ok(Profile::Tb { rate, burst });
    }
    if let Ok(rest) = keyword(text, b" sr") {
        return single_rate(rest, word + 1);
    }
    let rest = at(word, keyword(text, b" tr"))?;
    two_rate(rest, word + 1)
}
