// The plain types: refusals, colours and classes, keys, and what the headers of a frame say.
ghost use Rattle.std.specs.Prelude.{◌≡◌, ◌<◌, ◌⊎◌, MatchResult};
ghost use Rattle.packet.specs.Kinds.{number_of, class_number, class_or_unknown};

// Why a frame is not read, or not marked.
#[derive(Clone, Copy, PartialEq, Eq, Debug)]
pub enum Refusal {
    // fewer bytes captured than the link header has
    ShortFrame,
    // an IPv4 header that is not right, or not wholly captured
    BadHeader,
    // a buffer shorter than the frame
    ShortBuffer,
}

// The classes of service.
#[derive(Clone, Copy, PartialEq, Eq, Debug)]
pub enum Class {
    One,
    Two,
    Three,
    Four,
}

// A number that no class has.
#[derive(Clone, Copy, PartialEq, Eq, Debug)]
pub struct UnknownClass(pub u8);

// An IPv4 address, its first byte the highest.
#[derive(Clone, Copy, PartialEq, Eq, Debug)]
pub struct Address(pub u32);

// The key of an IPv4 packet.
#[derive(Clone, Copy, PartialEq, Eq, Debug)]
pub struct Conversation {
    pub source: Address,
    pub destination: Address,
    pub protocol: u8,
}

// The key of any other frame: the hardware address that sent it.
#[derive(Clone, Copy, PartialEq, Eq, Debug)]
pub struct Station {
    pub source: [u8; 6],
}

// What a flow is known by.
#[derive(Clone, Copy, PartialEq, Eq, Debug)]
pub enum Key {
    Conversation(Conversation),
    Station(Station),
}

// What the policer asks of an IPv4 header.
#[derive(Clone, Copy, PartialEq, Eq, Debug)]
pub struct Header {
    pub key: Conversation,
    // the six high bits of the type of service
    pub mark: u8,
}

// What the headers of a frame say.
#[derive(Clone, Copy, PartialEq, Eq, Debug)]
pub enum Packet {
    Ipv4(Header),
    Other(Station),
}

// Which bytes are to be written of a frame: one reading call over both slices hands them out, and nothing is allocated.
#[derive(Clone, Copy, PartialEq, Eq, Debug)]
pub enum Written {
    // the frame itself
    AsItCame,
    // its marked copy, in the buffer
    Marked,
}

impl Refusal {
    pub fn number(self) -> u8
        ensures { result ≡ number_of self }
    {
        match self {
            Refusal::ShortFrame => 32,
            Refusal::BadHeader => 33,
            Refusal::ShortBuffer => 39,
        }
    }
}

impl TryFrom<u8> for Class {
    type Error = UnknownClass;

    ghost try_from_gives = { λ number r. r ≡ class_or_unknown number };

    // An error unless the number is 1 to 4.
    fn try_from(number: u8) -> Result<Class, UnknownClass>
        ensures value { result ≡ class_or_unknown number }
        ensures cases { MatchResult result (λ c. class_number c ≡ number) (λ e. (e.0 ≡ number) × ((number < 1) ⊎ (4 < number))) }
    {
        match number {
            1 => Ok(Class::One),
            2 => Ok(Class::Two),
            3 => Ok(Class::Three),
            4 => Ok(Class::Four),
            _ => Err(UnknownClass(number)),
        }
    }
}
