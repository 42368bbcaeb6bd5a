// A line of the input as an arrival.
ghost use Rattle.std.specs.Prelude.{◌≡◌};
ghost use Rattle.colour.specs.Words.{words};
ghost use Rattle.colour.specs.Arrivals.{colour_named, size_of, colour_in, arrival_of, place_of};

use crate::texts::colour_name;
use crate::words::{next_word, number};
use meter::measures::{Arrival, Moment, PacketColour, Size};

// The longest line that is read as words, in bytes.
pub const LONGEST_LINE: usize = 120;

// What is wrong with a line: it is too long, or else its first word at fault, by its number.
#[derive(Clone, Copy, PartialEq, Eq, Debug)]
pub enum LineFault {
    TooLong = 0,
    // missing, or no moment
    Moment = 1,
    // missing, or no size
    Size = 2,
    // no colour
    Colour = 3,
    // a word behind the colour
    Extra = 4,
}

impl LineFault {
    // The word at fault, counted from 1; 0 for a line that is too long.
    pub fn word(self) -> u8
        ensures { result ≡ place_of self }
    {
        self as u8
    }
}

fn colour_named(word: &[u8]) -> Option<PacketColour>
    ensures { result ≡ colour_named word.now }
{
    [PacketColour::Green, PacketColour::Yellow, PacketColour::Red]
        .into_iter()
        .find(|colour| word == colour_name(*colour).as_bytes())
}

// The words from the third on: a colour, or none.
fn read_colour(text: &[u8]) -> Result<PacketColour, LineFault>
    ensures { result ≡ colour_in (words text.now) }
{
    let Some((word, rest)) = next_word(text) else {
        return Ok(PacketColour::Green);
    };
    let colour = colour_named(word).ok_or(LineFault::Colour)?;
    match next_word(rest) {
        None => Ok(colour),
        Some(_) => Err(LineFault::Extra),
    }
}

// The words from the second on.
fn read_size(text: &[u8], moment: Moment) -> Result<Arrival, LineFault>
    ensures { result ≡ size_of moment (words text.now) }
{
    let (word, rest) = next_word(text).ok_or(LineFault::Size)?;
    let bytes = number(word).ok_or(LineFault::Size)?;
    let size = Size(u32::try_from(bytes).map_err(|_| LineFault::Size)?);
    let colour = read_colour(rest)?;
    Ok(Arrival {
        moment,
        size,
        colour,
    })
}

// The arrival that a line gives, or what is wrong with the line.
#[tactic(auto, unfolding(crate::specs::Arrivals::arrival_of))]
pub fn read_arrival(line: &[u8]) -> Result<Arrival, LineFault>
    ensures { result ≡ arrival_of line.now }
{
    if line.len() > LONGEST_LINE {
        return Err(LineFault::TooLong);
    }
    let (word, rest) = next_word(line).ok_or(LineFault::Moment)?;
    let moment = number(word).ok_or(LineFault::Moment)?;
    read_size(rest, Moment(moment))
}
