// What is read of a frame, and what is refused.
use crate::frames::{LONGEST, OPTIONS, PUBLISHED, TWO_CARRIES, other};
use packet::headers::key_of;
use packet::kinds::{Address, Class, Conversation, Key, Refusal, Station, UnknownClass};
use std::test::Fail;

// The number of the refusal, where there was one.
fn refused(answer: Result<Key, Refusal>) -> Option<u8> {
    answer.err().map(|refusal| refusal.number())
}

// With 45, 20 and 66e7 the other words sum to ffff, so the checksum is 0000 and nothing else.
fn corner(first: u8, total: u8, id: [u8; 2], checksum: u8) -> Option<u8> {
    let [high, low] = id;
    refused(key_of(&[
        1, 2, 3, 4, 5, 6, 0x11, 0x12, 0x13, 0x14, 0x15, 0x16, 8, 0, first, 0, 0, total, high, low,
        0, 0, 0x40, 1, checksum, checksum, 10, 0, 0, 1, 10, 0, 0, 2,
    ]))
}

#[test]
fn every_length(rt: HostRuntime) {
    for n in 0..61 {
        let expected = if n < 14 {
            Some(32)
        } else if n < 34 {
            Some(33)
        } else {
            None
        };
        assert_eq!(rt; refused(key_of(&PUBLISHED[..n])), expected);
    }
}

#[test]
fn every_condition(rt: HostRuntime) {
    assert_eq!(rt; corner(0x45, 20, [0x66, 0xe7], 0), None);
    assert_eq!(rt;
        corner(0x45, 20, [0x66, 0xe7], 0xff),
        Some(33),
        "the other zero"
    );
    assert_eq!(rt; corner(0x45, 19, [0x66, 0xe8], 0), Some(33), "total length");
    assert_eq!(rt; corner(0x65, 20, [0x46, 0xe7], 0), Some(33), "version");
    assert_eq!(rt; corner(0x44, 20, [0x67, 0xe7], 0), Some(33), "four words");
    assert_eq!(rt;
        corner(0x46, 24, [0x65, 0xe3], 0),
        Some(33),
        "not wholly captured"
    );
}

#[test]
fn every_word_counts(rt: HostRuntime) {
    assert_eq!(rt; refused(key_of(&OPTIONS)), None);
    assert_eq!(rt; refused(key_of(&LONGEST)), None);
    assert_eq!(rt; refused(key_of(&TWO_CARRIES)), None);
    let mut last = LONGEST;
    last[73] = 2;
    assert_eq!(rt; refused(key_of(&last)), Some(33));
    assert_eq!(rt; refused(key_of(&LONGEST[..73])), Some(33));
}

#[test]
fn keys(rt: HostRuntime) -> Result<(), Fail> {
    assert_eq!(rt;
        key_of(&PUBLISHED)?,
        Key::Conversation(Conversation {
            source: Address(0xc0a8_0001),
            destination: Address(0xc0a8_00c7),
            protocol: 17,
        })
    );
    assert_eq!(rt;
        key_of(&other())?,
        Key::Station(Station {
            source: [0x11, 0x12, 0x13, 0x14, 0x15, 0x16],
        })
    );
    Ok(())
}

#[test]
fn classes(rt: HostRuntime) {
    assert_eq!(rt; Class::try_from(0), Err(UnknownClass(0)));
    assert_eq!(rt; Class::try_from(1), Ok(Class::One));
    assert_eq!(rt; Class::try_from(4), Ok(Class::Four));
    assert_eq!(rt; Class::try_from(5), Err(UnknownClass(5)));
}
