// The words that are addresses: a prefix a.b.c.d/len, and the twelve digits of a station.
ghost use Rattle.std.specs.Prelude.{◌≡◌, ◌+◌, ◌*◌, [], Ok, Err, MatchResult};
ghost use Rattle.policy_words.specs.Words.{then, Reads};
ghost use Rattle.policy_words.specs.Addresses.{part_of, octet_of, octets_of, prefix_word_of, hex_digit, hex_byte, pairs_of, station_of};

use crate::causes::Cause;
use crate::numbers::number;
use crate::words::{any_or, byte, next, word_end};
use packet::kinds::{Address, Station};
use policy::rules::Prefix;

// How many bytes a station's address has.
const STATION_BYTES: usize = 6;

// A number up to 255.
#[tactic(auto, unfolding(crate::specs::Addresses::octet_of))]
fn octet(text: &[u8]) -> Result<(u8, &[u8]), Cause>
    ensures { Reads result (octet_of text.now) }
{
    let (value, rest) = number(text)?;
    Ok((byte(value)?, rest))
}

// A number up to 255 before the byte `mark`.
#[tactic(auto, unfolding(crate::specs::Addresses::part_of))]
fn part(text: &[u8], mark: u8) -> Result<(u8, &[u8]), Cause>
    ensures { Reads result (part_of mark text.now) }
{
    let (value, rest) = octet(text)?;
    match rest.split_first() {
        Some((b, after)) if *b == mark => Ok((value, after)),
        _ => Err(Cause::Form),
    }
}

// Four parts, of which the last stands before a slash.
#[tactic(auto, unfolding(crate::specs::Addresses::octets_of))]
fn octets(text: &[u8]) -> Result<(Address, &[u8]), Cause>
    ensures { Reads result (octets_of text.now) }
{
    let (a, rest) = part(text, b'.')?;
    let (b, rest) = part(rest, b'.')?;
    let (c, rest) = part(rest, b'.')?;
    let (d, rest) = part(rest, b'/')?;
    Ok((Address(u32::from_be_bytes([a, b, c, d])), rest))
}

// The prefix that is the next word. No bit is set beyond its first ones.
#[tactic(auto, unfolding(crate::specs::Addresses::prefix_word_of))]
pub fn prefix_word(text: &[u8]) -> Result<(Prefix, &[u8]), Cause>
    ensures { Reads result (prefix_word_of text.now) }
{
    let (address, rest) = octets(next(text)?)?;
    let (length, rest) = octet(rest)?;
    let prefix = Prefix::new(address, length).ok_or(Cause::Form)?;
    word_end(rest)?;
    Ok((prefix, rest))
}

// What a hexadecimal digit stands for; only small letters will do.
fn hex_digit(b: u8) -> Result<u8, Cause>
    ensures { result ≡ hex_digit b }
{
    match b {
        b'0'..=b'9' => Ok(b - b'0'),
        b'a'..=b'f' => Ok(b - b'a' + 10),
        _ => Err(Cause::Form),
    }
}

// The byte that two digits write, the first the high one.
fn hex_pair(high: u8, low: u8) -> Result<u8, Cause>
    ensures { result ≡ then (hex_digit high) (λ h. then (hex_digit low) (λ l. Ok (16 * h + l))) }
{
    let high = hex_digit(high)?;
    let low = hex_digit(low)?;
    Ok(16 * high + low)
}

// The byte at the front of `text`.
fn hex_byte(text: &[u8]) -> Result<(u8, &[u8]), Cause>
    ensures { Reads result (hex_byte text.now) }
{
    let [high, low, rest @ ..] = text else {
        return Err(Cause::Form);
    };
    Ok((hex_pair(*high, *low)?, rest))
}

// The station that six pairs of digits write, as a word.
fn pairs(text: &[u8]) -> Result<(Station, &[u8]), Cause>
    ensures { MatchResult result (λ p. pairs_of 6 [] text.now ≡ Ok (p.0.source, p.1.now)) (λ e. pairs_of 6 [] text.now ≡ Err e) }
{
    let mut source = [0; STATION_BYTES];
    let mut rest = text;
    for place in source.iter_mut() {
        let (b, after) = hex_byte(rest)?;
        *place = b;
        rest = after;
    }
    word_end(rest)?;
    Ok((Station { source }, rest))
}

// The station that is the next word, or any.
pub fn station_word(text: &[u8]) -> Result<(Option<Station>, &[u8]), Cause>
    ensures { Reads result (station_of text.now) }
{
    any_or(text, |text| pairs(next(text)?))
}
