// Numbers as a policy writes them: at most 13 decimal digits, and no leading zero but in 0 alone.
ghost use Rattle.std.specs.Prelude.{◌≡◌, ◌^◌, ◌<◌, ◌≤◌, true, ◌++◌, length, take, drop, IfOk, Ok, Err, decimal, MatchResult};
ghost use Rattle.std.specs.Str.{all_ascii_digits};
ghost use Rattle.policy_words.specs.Numbers.{digit_run, read_on, number_by, number_of, Undigited};
ghost use Rattle.policy_words.specs.Words.{Reads};

/// Why a text does not begin with a number.
#[derive(Clone, Copy, Debug, PartialEq, Eq)]
pub enum NumberFault {
    NoDigit,
    TooLong,
    LeadingZero,
}

/// The most digits that a number has.
pub const MOST_DIGITS: usize = 13;

// How many digits stand at the front of `text`.
fn run(text: &[u8]) -> usize
    ensures { result ≡ digit_run text.now }
{
    text.iter()
        .position(|b| !b.is_ascii_digit())
        .unwrap_or(text.len())
}

// The number that `digits` write.
fn value(digits: &[u8]) -> u64
    requires { (all_ascii_digits digits.now ≡ true) × (length digits.now ≤ 13) }
    ensures { result ≡ read_on 0 digits.now }
{
    let mut sum: u64 = 0;
    for d in digits {
        sum = 10 * sum + u64::from(*d - b'0');
    }
    sum
}

// That `n` digits at the front of `text` are a number's.
fn well_formed(text: &[u8], n: usize) -> Result<(), NumberFault>
    requires { n ≤ length text.now }
    ensures { MatchResult result (λ _. number_by n text.now ≡ Ok (read_on 0 (take n text.now), drop n text.now)) (λ e. number_by n text.now ≡ Err e) }
{
    if n == 0 {
        return Err(NumberFault::NoDigit);
    }
    if n > MOST_DIGITS {
        return Err(NumberFault::TooLong);
    }
    if text[0] == b'0' && n > 1 {
        return Err(NumberFault::LeadingZero);
    }
    Ok(())
}

/// The number at the front of `text`, and what follows it.
pub fn number(text: &[u8]) -> Result<(u64, &[u8]), NumberFault>
    ensures value { Reads result (number_of text.now) }
    ensures canonical { IfOk result (λ p. (text.now ≡ decimal p.0 ++ p.1.now) × Undigited p.1.now × (p.0 < 10 ^ 13)) }
{
    let n = run(text);
    well_formed(text, n)?;
    let (digits, rest) = text.split_at(n);
    Ok((value(digits), rest))
}
