// Prefixes just inside and outside, and which rule a key has.
use meter::measures::Mode;
use packet::kinds::{Address, Class, Conversation, Key, Station};
use policy::policies::Policy;
use policy::rules::{IpRule, Prefix, Selector};
use std::test::Fail;

// Whether the address lies in the prefix, where it is one.
fn within(prefix: u32, length: u8, address: u32) -> Option<bool> {
    Prefix::new(Address(prefix), length).map(|prefix| prefix.holds(Address(address)))
}

#[test]
fn long_prefixes(rt: HostRuntime) {
    assert_eq!(rt; within(0xc000_0202, 31, 0xc000_0203), Some(true));
    assert_eq!(rt; within(0xc000_0202, 31, 0xc000_0204), Some(false));
    assert_eq!(rt; within(0xc000_0202, 31, 0xc000_0201), Some(false));
    assert_eq!(rt; within(0xc000_0203, 32, 0xc000_0203), Some(true));
    assert_eq!(rt; within(0xc000_0203, 32, 0xc000_0202), Some(false));
}

#[test]
fn short_prefixes(rt: HostRuntime) {
    assert_eq!(rt; within(0, 0, 0xffff_ffff), Some(true));
    assert_eq!(rt; within(0x0a00_0000, 8, 0x0aff_ffff), Some(true));
    assert_eq!(rt; within(0x0a00_0000, 8, 0x0b00_0000), Some(false));
    assert_eq!(rt; within(0x0a00_0000, 8, 0x09ff_ffff), Some(false));
}

// A bit beyond the length, and too great a length.
#[test]
fn no_prefixes(rt: HostRuntime) {
    assert_eq!(rt; within(1, 0, 0), None);
    assert_eq!(rt; within(0x0a01_0000, 8, 0), None);
    assert_eq!(rt; within(0xc000_0203, 31, 0), None);
    assert_eq!(rt; within(0, 33, 0), None);
}

// From the prefix to anywhere.
fn from(prefix: u32, length: u8, protocol: Option<u8>) -> Result<Selector, Fail> {
    let (Some(source), Some(destination)) = (
        Prefix::new(Address(prefix), length),
        Prefix::new(Address(0), 0),
    ) else {
        return Err(Fail::new("no prefix"));
    };
    Ok(Selector::Ip(IpRule {
        source,
        destination,
        protocol,
        class: Class::One,
        mode: Mode::Aware,
    }))
}

fn conversation(source: u32, protocol: u8) -> Key {
    Key::Conversation(Conversation {
        source: Address(source),
        destination: Address(0xc000_0201),
        protocol,
    })
}

fn station(last: u8) -> Station {
    Station {
        source: [2, 0, 0, 0, 0, last],
    }
}

#[test]
fn first_wins(rt: HostRuntime) -> Result<(), Fail> {
    let mut policy: Policy<u32> = Policy::new(rt.alloc());
    assert_eq!(rt; policy.rule_for(conversation(0x0a00_0001, 17)), None);
    policy.add_rule(from(0x0a00_0000, 8, Some(17))?, 0, 7)?;
    policy.add_rule(from(0x0a00_0000, 8, None)?, 0, 7)?;
    policy.add_rule(from(0, 0, None)?, 0, 7)?;
    assert_eq!(rt; policy.rule_for(conversation(0x0a00_0001, 17)), Some(0));
    assert_eq!(rt; policy.rule_for(conversation(0x0a00_0001, 6)), Some(1));
    assert_eq!(rt; policy.rule_for(conversation(0x0b00_0001, 17)), Some(2));
    Ok(())
}

#[test]
fn stations(rt: HostRuntime) -> Result<(), Fail> {
    let mut policy: Policy<u32> = Policy::new(rt.alloc());
    policy.add_rule(from(0, 0, None)?, 0, 7)?;
    assert_eq!(rt; policy.rule_for(Key::Station(station(1))), None);
    policy.add_rule(Selector::Mac(Some(station(1))), 0, 7)?;
    policy.add_rule(Selector::Mac(None), 0, 7)?;
    assert_eq!(rt; policy.rule_for(Key::Station(station(1))), Some(1));
    assert_eq!(rt; policy.rule_for(Key::Station(station(2))), Some(2));
    assert_eq!(rt; policy.rule_for(conversation(1, 1)), Some(0));
    Ok(())
}
