// What marking writes, leaves and refuses.
use crate::frames::{OPTIONS, PUBLISHED, other, published};
use meter::measures::PacketColour;
use packet::headers::read;
use packet::kinds::{Class, Refusal, Written};
use packet::marking::mark;
use packet::marks::Marks;
use std::process::Abort;
use std::test::Fail;

// The frame is written as expected, with nothing past it touched; is it the copy?
fn writes(
    rt: &impl Abort,
    frame: &[u8],
    class: Class,
    colour: PacketColour,
    expected: &[u8],
) -> Result<Written, Fail> {
    let marks = Marks::assured_forwarding();
    let mut buffer = [0xee; 61];
    let written = mark(&marks, frame, class, colour, &mut buffer)?;
    let out = written.bytes(frame, &buffer);
    assert_eq!(rt; out, expected);
    assert_eq!(rt; buffer[60], 0xee);
    if written == Written::AsItCame {
        assert_eq!(rt; buffer, [0xee; 61]);
    } else {
        assert_eq!(rt; read(expected)?.arrival(&marks), colour);
    }
    Ok(written)
}

#[test]
fn copies(rt: HostRuntime) -> Result<(), Fail> {
    let copy = writes(
        &rt,
        &PUBLISHED,
        Class::One,
        PacketColour::Green,
        &published(0x28, [0xb8, 0x39]),
    )?;
    assert_eq!(rt; copy, Written::Marked);
    let copy = writes(
        &rt,
        &published(0x28, [0xb8, 0x39]),
        Class::Two,
        PacketColour::Green,
        &published(0x48, [0xb8, 0x19]),
    )?;
    assert_eq!(rt; copy, Written::Marked, "another class");
    let copy = writes(
        &rt,
        &published(1, [0xb8, 0x60]),
        Class::Four,
        PacketColour::Red,
        &published(0x99, [0xb7, 0xc8]),
    )?;
    assert_eq!(rt; copy, Written::Marked, "two low bits stay");
    let mut expected = OPTIONS;
    expected[15] = 0x70;
    expected[24] = 0xd1;
    expected[25] = 0x6e;
    assert_eq!(rt;
        writes(&rt, &OPTIONS, Class::Three, PacketColour::Yellow, &expected)?,
        Written::Marked
    );
    Ok(())
}

#[test]
fn no_copy(rt: HostRuntime) -> Result<(), Fail> {
    let green = published(0x2b, [0xb8, 0x36]);
    assert_eq!(rt;
        writes(&rt, &green, Class::One, PacketColour::Green, &green)?,
        Written::AsItCame
    );
    assert_eq!(rt;
        writes(&rt, &other(), Class::One, PacketColour::Green, &other())?,
        Written::AsItCame
    );
    Ok(())
}

// What is refused, at a buffer of some bytes, which stay.
fn refuses(rt: &impl Abort, frame: &[u8], bytes: &mut [u8], refusal: Refusal) {
    let marks = Marks::assured_forwarding();
    assert_eq!(rt;
        mark(&marks, frame, Class::One, PacketColour::Green, bytes),
        Err(refusal)
    );
}

#[test]
fn refusals_in_order(rt: HostRuntime) {
    let mut short = [0xee; 12];
    refuses(&rt, &PUBLISHED[..13], &mut short, Refusal::ShortFrame);
    refuses(&rt, &PUBLISHED[..33], &mut short, Refusal::BadHeader);
    refuses(&rt, &PUBLISHED, &mut short, Refusal::ShortBuffer);
    refuses(&rt, &other(), &mut short, Refusal::ShortBuffer);
    refuses(
        &rt,
        &published(0x28, [0xb8, 0x39]),
        &mut short,
        Refusal::ShortBuffer,
    );
    assert_eq!(rt; short, [0xee; 12]);
}

#[test]
fn colours_of_marks(rt: HostRuntime) {
    let marks = Marks::assured_forwarding();
    for (code, colour) in [
        (0, PacketColour::Green),
        (10, PacketColour::Green),
        (12, PacketColour::Yellow),
        (22, PacketColour::Red),
        (28, PacketColour::Yellow),
        (38, PacketColour::Red),
        (46, PacketColour::Green),
    ] {
        assert_eq!(rt; marks.colour_of(code), colour);
    }
}
