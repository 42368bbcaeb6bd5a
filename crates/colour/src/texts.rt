// The text of each line that is printed.
ghost use Rattle.std.specs.Prelude.{◌≡◌, Some};
ghost use Rattle.colour.specs.Texts.{colour_name, entry_text, count_text, counts_text, fault_text};

use crate::entries::{Count, Counts, Entry, Rejection};
use crate::purchase::WordFault;
use meter::measures::PacketColour;
use std::fmt;

// The colours' names, for reading and writing. No Display: the type is `meter`'s.
pub(crate) fn colour_name(colour: PacketColour) -> &'static str
    ensures { result.now ≡ colour_name colour }
{
    match colour {
        PacketColour::Green => "green",
        PacketColour::Yellow => "yellow",
        PacketColour::Red => "red",
    }
}

impl fmt::Display for Entry {
    ghost output = { λ e. Some (entry_text e.number e.verdict) };

    fn fmt<W: fmt::Write>(&self, f: &mut fmt::Formatter<W>) -> fmt::Result {
        let number = self.number;
        match self.verdict {
            Ok(colour) => writeln!(f, "{number} {}", colour_name(colour)),
            Err(Rejection::Refused(refusal)) => {
                writeln!(f, "{number} refused {}", refusal.number())
            }
            Err(Rejection::Malformed(fault)) => {
                writeln!(f, "{number} refused 1 word {}", fault.word())
            }
        }
    }
}

impl fmt::Display for Count {
    ghost output = { λ n. Some (count_text n) };

    fn fmt<W: fmt::Write>(&self, f: &mut fmt::Formatter<W>) -> fmt::Result {
        write!(f, "{} {}", self.packets, self.bytes)
    }
}

impl fmt::Display for Counts {
    ghost output = { λ c. Some (counts_text c) };

    fn fmt<W: fmt::Write>(&self, f: &mut fmt::Formatter<W>) -> fmt::Result {
        let (green, yellow, red) = (self.green, self.yellow, self.red);
        writeln!(f, "total green {green} yellow {yellow} red {red}")
    }
}

impl fmt::Display for WordFault {
    ghost output = { λ e. Some (fault_text e.word e.cause) };

    fn fmt<W: fmt::Write>(&self, f: &mut fmt::Formatter<W>) -> fmt::Result {
        let word = self.word;
        let cause = self.cause.number();
        writeln!(f, "meter word {word} refused {cause}")
    }
}
