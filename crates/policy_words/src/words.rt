// The parts of a line: keywords, numbers, and where a word or the line has its end.
ghost use Rattle.std.specs.Prelude.{◌≡◌, ℕ, ◌<◌, ◌≤◌, true, false, List, Ok, Err, Result, MatchResult};
ghost use Rattle.policy_words.specs.declared.causes.Cause.{Cause};
ghost use Rattle.policy_words.specs.declared.causes.Cause.TheVariants.{Form};
ghost use Rattle.policy_words.specs.Words.{stop, lit, gap, field, judged, any_of, finish, Reads, Leaves, Computes};

use crate::causes::Cause;
use crate::numbers::number;

// Whether a word has its end here: the line ends, or a space follows.
pub fn stops(text: &[u8]) -> bool
    ensures { result ≡ stop text.now }
{
    match text {
        [] => true,
        [b, ..] => *b == b' ',
    }
}

// That a word has its end here.
pub(crate) fn word_end(text: &[u8]) -> Result<(), Cause>
    ensures { MatchResult result (λ _. stop text.now ≡ true) (λ e. (e ≡ Form) × (stop text.now ≡ false)) }
{
    if stops(text) {
        Ok(())
    } else {
        Err(Cause::Form)
    }
}

// What follows the bytes `word` at the front, which are a word, after a space or at the line's start.
pub fn keyword<'a>(text: &'a [u8], word: &[u8]) -> Result<&'a [u8], Cause>
    ensures { Leaves result (lit word.now text.now) }
{
    let Some(rest) = text.strip_prefix(word) else {
        return Err(Cause::Form);
    };
    word_end(rest)?;
    Ok(rest)
}

// What follows the space before a word.
pub fn next(text: &[u8]) -> Result<&[u8], Cause>
    ensures { Leaves result (gap text.now) }
{
    text.strip_prefix(b" ").ok_or(Cause::Form)
}

// The number that is the next word.
pub fn count(text: &[u8]) -> Result<(u64, &[u8]), Cause>
    ensures { Reads result (field text.now) }
{
    let (value, after) = number(next(text)?)?;
    word_end(after)?;
    Ok((value, after))
}

// What `check` makes of the number that is the next word.
pub(crate) fn count_as<T, F: FnOnce(u64) -> Result<T, Cause>>(
    text: &[u8],
    check: F,
) -> Result<(T, &[u8]), Cause>
    requires { F.IsAlwaysCallable check }
    ensures { (f : ℕ → Result T Cause) → Computes (F.post check) f → Reads result (judged f text.now) }
{
    let (value, rest) = count(text)?;
    Ok((check(value)?, rest))
}

// What `read` makes of the next word, or nothing where that is the word any.
pub(crate) fn any_or<'a, T, F: FnOnce(&'a [u8]) -> Result<(T, &'a [u8]), Cause>>(
    text: &'a [u8],
    read: F,
) -> Result<(Option<T>, &'a [u8]), Cause>
    requires { F.IsAlwaysCallable read }
    ensures { (r : Result (T × List ℕ) Cause) → ((a : _) → F.post read text.entry a → Reads a r) → Reads result (any_of r text.now) }
{
    if let Ok(rest) = keyword(text, b" any") {
        return Ok((None, rest));
    }
    let (value, rest) = read(text)?;
    Ok((Some(value), rest))
}

// A number up to 255, as a byte.
pub fn byte(value: u64) -> Result<u8, Cause>
    ensures { MatchResult result (λ b. (b ≡ value) × (value ≤ 255)) (λ e. (e ≡ Form) × (255 < value)) }
{
    u8::try_from(value).map_err(|_| Cause::Form)
}

// That the line ends here.
pub fn ended(text: &[u8]) -> Result<(), Cause>
    ensures { result ≡ finish text.now }
{
    match text {
        [] => Ok(()),
        _ => Err(Cause::Form),
    }
}
