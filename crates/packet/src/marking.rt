// Marking a frame in a buffer, and the bytes that are then to be written.
ghost use Rattle.std.specs.Prelude.{◌≡◌, ◌<◌, true};
ghost use Rattle.packet.specs.Layout.{packet_of, header_right};
ghost use Rattle.packet.specs.Marking.{chosen, marked, written_of, Marking};

use crate::checksum::checksum;
use crate::headers::{CHECKSUM, LINK_HEADER, SERVICE, read};
use crate::kinds::{Class, Packet, Refusal, Written};
use crate::marks::Marks;
use meter::measures::PacketColour;

// Where a frame has the byte of its mark.
const MARK: usize = LINK_HEADER + SERVICE;

// Where a frame has its checksum, of two bytes.
const FRAME_CHECKSUM: usize = LINK_HEADER + CHECKSUM;

// Gives an IPv4 packet the mark of a class and colour, in a copy at the front of the buffer. Where it has that mark,
// and for any other frame, there is no copy and the buffer stays.
#[tactic(auto, using(crate::proofs::Exits::copied, crate::proofs::Exits::marked_right))]
pub fn mark(
    marks: &Marks,
    frame: &[u8],
    class: Class,
    colour: PacketColour,
    buffer: &mut [u8],
) -> Result<Written, Refusal>
    ensures { Marking marks.now class colour frame.now buffer.old buffer.new result }
{
    let packet = read(frame)?;
    if buffer.len() < frame.len() {
        return Err(Refusal::ShortBuffer);
    }
    let code = marks.code_of(class, colour);
    let Written::Marked = choose(packet, code) else {
        return Ok(Written::AsItCame);
    };
    let copy = &mut buffer[..frame.len()];
    copy.copy_from_slice(frame);
    put_mark(copy, code);
    Ok(Written::Marked)
}

impl Written {
    // The bytes to be written: the frame, or its copy at the front of the buffer that marking left.
    pub fn bytes<'a>(self, frame: &'a [u8], buffer: &'a [u8]) -> &'a [u8]
        ensures { result.now ≡ written_of self frame.now buffer.now }
    {
        match self {
            Written::AsItCame => frame,
            Written::Marked => &buffer[..frame.len().min(buffer.len())],
        }
    }
}

// The copy only where the mark differs.
fn choose(packet: Packet, code: u8) -> Written
    ensures { result ≡ chosen code packet }
{
    match packet {
        Packet::Ipv4(header) if header.mark != code => Written::Marked,
        _ => Written::AsItCame,
    }
}

// Writes a mark into a frame with a right IPv4 header, and the checksum that is right then.
fn put_mark(frame: &mut [u8], code: u8)
    requires right { header_right (packet_of frame.old) ≡ true }
    requires small { code < 64 }
    ensures { frame.new ≡ marked frame.old code }
{
    frame[MARK] = 4 * code + frame[MARK] % 4;
    let end = LINK_HEADER + 4 * usize::from(frame[LINK_HEADER] % 16);
    let [high, low] = checksum(&frame[LINK_HEADER..end]).to_be_bytes();
    frame[FRAME_CHECKSUM] = high;
    frame[FRAME_CHECKSUM + 1] = low;
}
