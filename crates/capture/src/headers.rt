// A file's header: read, and written as it came.
ghost use Rattle.std.specs.Prelude.{◌≡◌, ◌≤◌, length};
ghost use Rattle.capture.specs.Headers.{order_of, header_of, header_bytes, HeaderFronts, HeaderReadsAs};

use crate::layout::{FileHeader, Order, Refusal};

// What every capture begins with, in its order.
const MAGIC: u32 = 0xa1b2_c3d4;

const MAJOR_VERSION: u16 = 2;

const MINOR_VERSION: u16 = 4;

// The link type whose frames are Ethernet's.
const ETHERNET: u32 = 1;

// The bytes of a file's header.
pub const FILE_HEAD_SIZE: usize = 24;

// The order in which bytes begin with the magic number.
fn order_of(bytes: &[u8]) -> Option<Order>
    requires { 4 ≤ length bytes.now }
    ensures value { result ≡ order_of bytes.now }
{
    // no `find` over both: an array's iterator keeps them in memory, and took over twice as long
    if Order::Little.number::<u32, 4>(bytes, 0) == MAGIC {
        Some(Order::Little)
    } else if Order::Big.number::<u32, 4>(bytes, 0) == MAGIC {
        Some(Order::Big)
    } else {
        None
    }
}

impl FileHeader {
    // The header that a file begins with.
    pub fn read(bytes: &[u8]) -> Result<FileHeader, Refusal>
        ensures value { result ≡ header_of bytes.now }
        ensures fronts { HeaderFronts bytes.now result }
    {
        if bytes.len() < FILE_HEAD_SIZE {
            return Err(Refusal::ShortFile);
        }
        let order = order_of(bytes).ok_or(Refusal::BadMagic)?;
        let major: u16 = order.number(bytes, 4);
        let minor: u16 = order.number(bytes, 6);
        if major != MAJOR_VERSION || minor != MINOR_VERSION {
            return Err(Refusal::BadVersion);
        }
        let link: u32 = order.number(bytes, 20);
        if link != ETHERNET {
            return Err(Refusal::BadLink);
        }
        Ok(FileHeader {
            order,
            zone: order.number(bytes, 8),
            accuracy: order.number(bytes, 12),
            snap_length: order.number(bytes, 16),
        })
    }

    // The header as it is written.
    pub fn bytes(&self) -> [u8; FILE_HEAD_SIZE]
        ensures value { result ≡ header_bytes self.now }
        ensures again { HeaderReadsAs result self.now }
    {
        let order = self.order;
        let mut bytes = [0; FILE_HEAD_SIZE];
        order.put(MAGIC, &mut bytes, 0);
        order.put(MAJOR_VERSION, &mut bytes, 4);
        order.put(MINOR_VERSION, &mut bytes, 6);
        order.put(self.zone, &mut bytes, 8);
        order.put(self.accuracy, &mut bytes, 12);
        order.put(self.snap_length, &mut bytes, 16);
        order.put(ETHERNET, &mut bytes, 20);
        bytes
    }
}
