// Reading and choosing marks by a table.
ghost use Rattle.std.specs.Prelude.{◌≡◌, ◌<◌};
ghost use Rattle.packet.specs.declared.kinds.Class.{Class};
ghost use Rattle.meter.specs.declared.measures.PacketColour.{PacketColour};
ghost use Rattle.packet.specs.Marks.{place, code, is_mark, colour_of, arrival_of, assured};

use crate::kinds::{Class, Packet};
use crate::marks::Marks;
use meter::measures::PacketColour;

// How many colours a class has.
const COLOURS: usize = 3;

impl Marks {
    // The marks of assured forwarding: 8 for each class, and 2, 4 or 6 for the colour.
    pub fn assured_forwarding() -> Marks
        ensures { (c : Class) (k : PacketColour) → code result c k ≡ assured c k }
    {
        Marks {
            codes: [10, 12, 14, 18, 20, 22, 26, 28, 30, 34, 36, 38],
        }
    }

    // The code point of a class and colour, which reads as that colour again.
    pub fn code_of(&self, class: Class, colour: PacketColour) -> u8
        ensures value { result ≡ code self.now class colour }
        ensures bound { result < 64 }
        ensures back { colour_of self.now result ≡ colour }
    {
        self.codes[place_of(class, colour)]
    }

    // The colour of a code point, in whatever class; one that is not in the table is green.
    pub fn colour_of(&self, code: u8) -> PacketColour
        ensures { result ≡ colour_of self.now code }
    {
        if self.has(PacketColour::Red, code) {
            PacketColour::Red
        } else if self.has(PacketColour::Yellow, code) {
            PacketColour::Yellow
        } else {
            PacketColour::Green
        }
    }

    fn has(&self, colour: PacketColour, code: u8) -> bool
        ensures { result ≡ is_mark self.now colour code }
    {
        self.codes[place_of(Class::One, colour)] == code
            || self.codes[place_of(Class::Two, colour)] == code
            || self.codes[place_of(Class::Three, colour)] == code
            || self.codes[place_of(Class::Four, colour)] == code
    }
}

impl Packet {
    // The colour with which the packet arrives; one that has no mark is green.
    pub fn arrival(self, marks: &Marks) -> PacketColour
        ensures { result ≡ arrival_of marks.now self }
    {
        match self {
            Packet::Ipv4(header) => marks.colour_of(header.mark),
            Packet::Other(_) => PacketColour::Green,
        }
    }
}

// The place of a class and colour in the table.
fn place_of(class: Class, colour: PacketColour) -> usize
    ensures value { result ≡ place class colour }
    ensures bound { result < 12 }
{
    let row = match class {
        Class::One => 0,
        Class::Two => 1,
        Class::Three => 2,
        Class::Four => 3,
    };
    let column = match colour {
        PacketColour::Green => 0,
        PacketColour::Yellow => 1,
        PacketColour::Red => 2,
    };
    COLOURS * row + column
}
