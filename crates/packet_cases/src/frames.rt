// The frames.

// The header 45 00 00 73 .. b8 61 .., which is widely published, in a frame of 60 bytes.
pub const PUBLISHED: [u8; 60] = [
    1, 2, 3, 4, 5, 6, 0x11, 0x12, 0x13, 0x14, 0x15, 0x16, 8, 0, 0x45, 0, 0, 0x73, 0, 0, 0x40, 0,
    0x40, 0x11, 0xb8, 0x61, 0xc0, 0xa8, 0, 1, 0xc0, 0xa8, 0, 0xc7, 1, 2, 3, 4, 5, 6, 7, 8, 9, 10,
    11, 12, 13, 14, 15, 16, 17, 18, 19, 20, 21, 22, 23, 24, 25, 26,
];

// Six words: 4600 + 0018 + 4001 + 0a00 + 0001 + 0a00 + 0002 + 9404 is 12e20, folded 2e21, its complement d1de.
pub const OPTIONS: [u8; 38] = [
    1, 2, 3, 4, 5, 6, 0x11, 0x12, 0x13, 0x14, 0x15, 0x16, 8, 0, 0x46, 0, 0, 24, 0, 0, 0, 0, 0x40,
    1, 0xd1, 0xde, 10, 0, 0, 1, 10, 0, 0, 2, 0x94, 4, 0, 0,
];

// Fifteen words: 4f00 + 003c + 4001 + 0a00 + 0001 + 0a00 + 0002 + 20 * 0101 is b754, its complement 48ab.
pub const LONGEST: [u8; 74] = [
    1, 2, 3, 4, 5, 6, 0x11, 0x12, 0x13, 0x14, 0x15, 0x16, 8, 0, 0x4f, 0, 0, 60, 0, 0, 0, 0, 0x40,
    1, 0x48, 0xab, 10, 0, 0, 1, 10, 0, 0, 2, 1, 1, 1, 1, 1, 1, 1, 1, 1, 1, 1, 1, 1, 1, 1, 1, 1, 1,
    1, 1, 1, 1, 1, 1, 1, 1, 1, 1, 1, 1, 1, 1, 1, 1, 1, 1, 1, 1, 1, 1,
];

// 4500 + 0014 + 4001 + ffff + 7aeb is 1ffff, folded once 10000, and again 0001: its complement is fffe.
pub const TWO_CARRIES: [u8; 34] = [
    1, 2, 3, 4, 5, 6, 0x11, 0x12, 0x13, 0x14, 0x15, 0x16, 8, 0, 0x45, 0, 0, 20, 0, 0, 0, 0, 0x40,
    1, 0xff, 0xfe, 0xff, 0xff, 0x7a, 0xeb, 0, 0, 0, 0,
];

// The published frame with another type of service, and the checksum that goes with it.
pub fn published(service: u8, checksum: [u8; 2]) -> [u8; 60] {
    let [high, low] = checksum;
    let mut frame = PUBLISHED;
    frame[15] = service;
    frame[24] = high;
    frame[25] = low;
    frame
}

// The published frame as no IPv4 packet.
pub fn other() -> [u8; 60] {
    let mut frame = PUBLISHED;
    frame[13] = 6;
    frame
}
