// Captures worked out by hand, read whole, cut and in blocks.
#![tactic(auto)]

ghost use Rattle.std.specs.Prelude.{◌<◌};

#[cfg(test)]
mod tests {
    use capture::blocks::Blocks;
    use capture::indexing::index_blocks;
    use capture::layout::{Ending, Fault, FileHeader, Next, Order, Record, Refusal};
    use capture::records::check_numbers;
    use std::alloc::Global;
    use std::process::Abort;
    use std::test::Fail;

    // Two records, at places 24 and 43; the capture ends at 61.
    const LITTLE: [u8; 61] = [
        0xd4, 0xc3, 0xb2, 0xa1, 2, 0, 4, 0, 1, 2, 3, 4, 5, 6, 7, 8, 0xff, 0xff, 0, 0, 1, 0, 0, 0,
        100, 0, 0, 0, 7, 0, 0, 0, 3, 0, 0, 0, 60, 0, 0, 0, 10, 11, 12, 101, 0, 0, 0, 0x3f, 0x42,
        0x0f, 0, 2, 0, 0, 0, 0xff, 0xff, 0, 0, 13, 14,
    ];

    const BIG: [u8; 61] = [
        0xa1, 0xb2, 0xc3, 0xd4, 0, 2, 0, 4, 4, 3, 2, 1, 8, 7, 6, 5, 0, 0, 0xff, 0xff, 0, 0, 0, 1,
        0, 0, 0, 100, 0, 0, 0, 7, 0, 0, 0, 3, 0, 0, 0, 60, 10, 11, 12, 0, 0, 0, 101, 0, 0x0f, 0x42,
        0x3f, 0, 0, 0, 2, 0, 0, 0xff, 0xff, 13, 14,
    ];

    // How many bytes of the first `n` are the header and whole records, and how a capture of these `n` bytes ends.
    fn by_hand(n: usize) -> (usize, Ending) {
        match n {
            0..=23 => (
                0,
                Err(Fault {
                    refusal: Refusal::ShortFile,
                    place: 0,
                }),
            ),
            24 => (24, Ok(())),
            25..=42 => (
                24,
                Err(Fault {
                    refusal: Refusal::Incomplete,
                    place: 24,
                }),
            ),
            43 => (43, Ok(())),
            44..=60 => (
                43,
                Err(Fault {
                    refusal: Refusal::Incomplete,
                    place: 43,
                }),
            ),
            _ => (61, Ok(())),
        }
    }

    // Writes what comes of the bytes at hand; how the capture ends, where that has come.
    fn copy_at_hand(
        capture: &mut Blocks,
        order: &mut Order,
        out: &mut Vec<u8>,
    ) -> Result<Option<Ending>, Fail> {
        // A bound, so that it ends: no capture here has as many records.
        for _ in 0..1000 {
            match capture.look() {
                Next::Header(header) => {
                    *order = header.order;
                    out.extend_from_slice(&header.bytes())?;
                }
                Next::Handed(placed) => placed.record.write(*order, out)?,
                Next::Wanting(_) => return Ok(None),
                Next::Ended => return Ok(Some(Ok(()))),
                Next::Stopped(fault) => return Ok(Some(Err(fault))),
            }
            capture.advance();
        }
        Ok(None)
    }

    // Reads in blocks of `size` bytes, writes what is read, and compares it with what was worked out.
    fn same_in_blocks(rt: &impl Abort, heap: Global, bytes: &[u8], size: usize) -> Result<(), Fail>
        requires { 0 < size }
    {
        let mut capture = Blocks::new(heap);
        let mut order = Order::Little;
        let mut out = Vec::new(heap);
        for block in bytes.chunks(size) {
            capture.feed(block)?;
            assert_eq!(rt; copy_at_hand(&mut capture, &mut order, &mut out)?, None);
        }
        capture.close();
        let ending = copy_at_hand(&mut capture, &mut order, &mut out)?;
        let (length, expected) = by_hand(bytes.len());
        assert_eq!(rt; ending, Some(expected));
        assert!(rt; length <= bytes.len());
        assert_eq!(rt; out.as_slice(), &bytes[..length]);
        Ok(())
    }

    #[test]
    fn every_cut_in_blocks(rt: HostRuntime) -> Result<(), Fail> {
        for n in 0..62 {
            for size in [1, 7, 64] {
                same_in_blocks(&rt, rt.alloc(), &LITTLE[..n], size)?;
                same_in_blocks(&rt, rt.alloc(), &BIG[..n], size)?;
            }
        }
        Ok(())
    }

    // How the little-endian capture ends with one byte changed.
    fn ending_with(heap: Global, at: usize, value: u8) -> Result<Ending, Fail> {
        let mut bytes = LITTLE;
        if let Some(byte) = bytes.get_mut(at) {
            *byte = value;
        }
        let whole: &[u8] = &bytes;
        Ok(index_blocks(heap, &[whole])?.ending)
    }

    #[test]
    fn each_refusal_at_its_place(rt: HostRuntime) -> Result<(), Fail> {
        let faults = [
            (0, 0xd5, Refusal::BadMagic, 0),
            (3, 0xa2, Refusal::BadMagic, 0),
            (4, 3, Refusal::BadVersion, 0),
            (6, 5, Refusal::BadVersion, 0),
            (20, 0, Refusal::BadLink, 0),
            (20, 2, Refusal::BadLink, 0),
            (36, 0, Refusal::BadLength, 24),
            (36, 2, Refusal::BadLength, 24),
            (47, 0x40, Refusal::BadFraction, 43),
            (51, 3, Refusal::Incomplete, 43),
            (51, 1, Refusal::Incomplete, 60),
            (52, 0x40, Refusal::BadLength, 43),
            (57, 1, Refusal::BadLength, 43),
        ];
        for (at, value, refusal, place) in faults {
            assert_eq!(rt;
                ending_with(rt.alloc(), at, value)?,
                Err(Fault { refusal, place })
            );
        }
        // the least original length, zone, accuracy and snap length
        for (at, value) in [(36, 3), (8, 9), (12, 9), (16, 0)] {
            assert_eq!(rt; ending_with(rt.alloc(), at, value)?, Ok(()));
        }
        Ok(())
    }

    #[test]
    fn numbers_at_their_bounds(rt: HostRuntime) {
        assert_eq!(rt; check_numbers(999_999, 0, 1), Ok(()));
        assert_eq!(rt; check_numbers(0, 16_384, 16_384), Ok(()));
        assert_eq!(rt; check_numbers(0, 0, 65_535), Ok(()));
        assert_eq!(rt; check_numbers(1_000_000, 0, 0), Err(Refusal::BadFraction));
        assert_eq!(rt; check_numbers(0, 0, 0), Err(Refusal::BadLength));
        assert_eq!(rt; check_numbers(0, 0, 65_536), Err(Refusal::BadLength));
        assert_eq!(rt; check_numbers(0, 2, 1), Err(Refusal::BadLength));
        assert_eq!(rt; check_numbers(0, 16_385, 16_385), Err(Refusal::BadLength));
    }

    #[test]
    fn headers_and_moments(rt: HostRuntime) {
        let header = FileHeader {
            order: Order::Little,
            zone: 0x0403_0201,
            accuracy: 0x0807_0605,
            snap_length: 65_535,
        };
        assert_eq!(rt; FileHeader::read(&LITTLE), Ok(header));
        assert_eq!(rt;
            FileHeader::read(&BIG),
            Ok(FileHeader {
                order: Order::Big,
                ..header
            })
        );
        assert_eq!(rt; FileHeader::read(&LITTLE[..23]), Err(Refusal::ShortFile));
        let last = Record {
            seconds: 4_294_967_295,
            microseconds: 999_999,
            original: 1,
            frame: b"",
        };
        assert_eq!(rt; last.moment(), 4_294_967_295_999_999);
        assert_eq!(rt; Refusal::ShortFile.number(), 20);
        assert_eq!(rt; Refusal::BadLength.number(), 26);
    }
}
