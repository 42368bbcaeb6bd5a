// The headers of a frame, and the key that they give it.
ghost use Rattle.std.specs.Prelude.{◌≡◌, ◌+◌, ◌<◌, ◌≤◌, true, length, take, drop, MatchResult};
ghost use Rattle.packet.specs.Layout.{link_length, Linked, header_right, header_of, read_of, key_in, key_of};

use crate::checksum::checksum;
use crate::kinds::{Address, Conversation, Header, Key, Packet, Refusal, Station};

// How many bytes come before the packet.
pub(crate) const LINK_HEADER: usize = 14;

// The kind of packet that is IPv4.
const IPV4: u16 = 0x0800;

// The version of IPv4, and the fewest words, each of four bytes, that its header has.
const VERSION: u8 = 4;

const FEWEST_WORDS: u8 = 5;

// Where an IPv4 header has its fields.
pub(crate) const SERVICE: usize = 1;

const TOTAL_LENGTH: usize = 2;

const PROTOCOL: usize = 9;

pub(crate) const CHECKSUM: usize = 10;

const SOURCE: usize = 12;

const DESTINATION: usize = 16;

// An Ethernet frame, taken apart.
#[derive(Clone, Copy)]
struct Ethernet<'a> {
    source: [u8; 6],
    ether_type: u16,
    packet: &'a [u8],
}

// What the headers of a frame say. It is refused where they are not wholly there, or the IPv4 header is not right.
pub fn read(frame: &[u8]) -> Result<Packet, Refusal>
    ensures { result ≡ read_of frame.now }
{
    let link = link_header(frame)?;
    if link.ether_type == IPV4 {
        ip_header(link.packet).map(Packet::Ipv4)
    } else {
        Ok(Packet::Other(Station {
            source: link.source,
        }))
    }
}

// The key of a frame.
pub fn key_of(frame: &[u8]) -> Result<Key, Refusal>
    ensures { result ≡ key_of frame.now }
{
    read(frame).map(|packet| packet.key())
}

impl Packet {
    // What the packet's flow is known by.
    pub fn key(self) -> Key
        ensures { result ≡ key_in self }
    {
        match self {
            Packet::Ipv4(header) => Key::Conversation(header.key),
            Packet::Other(station) => Key::Station(station),
        }
    }
}

#[tactic(auto, using(crate::proofs::Bytes::source_is))]
fn link_header(frame: &[u8]) -> Result<Ethernet<'_>, Refusal>
    ensures { MatchResult result (λ e. Linked frame.now e.packet.now e.source e.ether_type) (λ e. (e ≡ Refusal.ShortFrame) × (length frame.now < link_length)) }
{
    let [
        _d0,
        _d1,
        _d2,
        _d3,
        _d4,
        _d5,
        s0,
        s1,
        s2,
        s3,
        s4,
        s5,
        t0,
        t1,
        packet @ ..,
    ] = frame
    else {
        return Err(Refusal::ShortFrame);
    };
    Ok(Ethernet {
        source: [*s0, *s1, *s2, *s3, *s4, *s5],
        ether_type: u16::from_be_bytes([*t0, *t1]),
        packet,
    })
}

fn ip_header(packet: &[u8]) -> Result<Header, Refusal>
    ensures { result ≡ header_of packet.now }
{
    if !is_right(packet) {
        return Err(Refusal::BadHeader);
    }
    let key = Conversation {
        source: Address(u32::from_be_bytes(array_at(packet, SOURCE))),
        destination: Address(u32::from_be_bytes(array_at(packet, DESTINATION))),
        protocol: packet[PROTOCOL],
    };
    Ok(Header {
        key,
        mark: packet[SERVICE] / 4,
    })
}

// Is the IPv4 header right, and wholly there?
fn is_right(packet: &[u8]) -> bool
    ensures { result ≡ header_right packet.now }
{
    let [first, ..] = packet else {
        return false;
    };
    let words = *first % 16;
    if *first / 16 != VERSION || words < FEWEST_WORDS {
        return false;
    }
    let length = 4 * usize::from(words);
    let Some(header) = packet.get(..length) else {
        return false;
    };
    let total = u16::from_be_bytes(array_at(packet, TOTAL_LENGTH));
    let stored = u16::from_be_bytes(array_at(packet, CHECKSUM));
    length <= usize::from(total) && stored == checksum(header)
}

// So many bytes from a place on.
fn array_at<const N: usize>(packet: &[u8], at: usize) -> [u8; N]
    requires { at + N ≤ length packet.now }
    ensures { result ≡ take N (drop at packet.now) }
{
    *packet[at..].first_chunk().unwrap()
}
