// The checksum of an IPv4 header.
ghost use Rattle.std.specs.Prelude.{◌≡◌, ◌^◌, ◌<◌, ◌≤◌, length, sum};
ghost use Rattle.packet.specs.Layout.{words_of, checksum_of};
ghost use Rattle.packet.specs.Sums.{Folds};

use crate::headers::CHECKSUM;

// The checksum that is right for a header, whatever it holds in the checksum's place.
pub(crate) fn checksum(header: &[u8]) -> u16
    requires long { 12 ≤ length header.now }
    requires short { length header.now ≤ 60 }
    ensures { result ≡ checksum_of header.now }
{
    0xffff - folded(word_sum(&header[..CHECKSUM]) + word_sum(&header[CHECKSUM + 2..]))
}

// The plain sum of 16-bit words, high byte first.
fn word_sum(bytes: &[u8]) -> u32
    requires { length bytes.now ≤ 60 }
    ensures value { result ≡ sum (words_of bytes.now) }
    ensures bound { result < 2 ^ 22 }
{
    let (words, _) = bytes.as_chunks::<2>();
    words
        .iter()
        .map(|word| u32::from(u16::from_be_bytes(*word)))
        .sum()
}

// Adds what passes sixteen bits back in, until nothing does.
fn folded(mut sum: u32) -> u16
    ensures { Folds sum result }
{
    while sum > 0xffff {
        sum = sum % 0x1_0000 + sum / 0x1_0000;
    }
    sum as u16
}
