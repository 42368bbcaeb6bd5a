// What a policy takes, and that what it refuses leaves its counts.
use meter::measures::Mode;
use packet::kinds::{Address, Class};
use policy::policies::Policy;
use policy::rules::{AddError, IpRule, Prefix, Selector};
use std::process::Abort;
use std::test::Fail;

// The number of the refusal, where there was one.
fn refused(res: Result<(), AddError>) -> Option<u8> {
    match res {
        Err(AddError::Refused(refusal)) => Some(refusal.number()),
        _ => None,
    }
}

// The node is refused with this number, and none is added.
fn refuses(rt: &impl Abort, policy: &mut Policy<u32>, number: u64, parent: u64, cause: u8) {
    let count = policy.tree.count();
    let result = policy.add_node(number, parent, 7);
    assert_eq!(rt; refused(result), Some(cause));
    assert_eq!(rt; policy.tree.count(), count);
    assert_eq!(rt; policy.meters.len(), usize::from(count));
}

#[test]
fn thirty_two_nodes(rt: HostRuntime) -> Result<(), Fail> {
    let mut policy: Policy<u32> = Policy::new(rt.alloc());
    for number in 1..33 {
        policy.add_node(number, number / 2, 7)?;
    }
    refuses(&rt, &mut policy, 33, 0, 7);
    assert_eq!(rt; policy.tree.depth(32), Some(6));
    assert_eq!(rt; policy.tree.parent(32), Some(16));
    Ok(())
}

#[test]
fn seven_deep(rt: HostRuntime) -> Result<(), Fail> {
    let mut policy: Policy<u32> = Policy::new(rt.alloc());
    for number in 1..8 {
        policy.add_node(number, number - 1, 7)?;
    }
    refuses(&rt, &mut policy, 8, 7, 6);
    policy.add_node(8, 6, 7)?;
    assert_eq!(rt; policy.tree.depth(8), Some(7));
    Ok(())
}

#[test]
fn numbers_and_parents(rt: HostRuntime) -> Result<(), Fail> {
    let mut policy: Policy<u32> = Policy::new(rt.alloc());
    refuses(&rt, &mut policy, 1, 1, 5);
    policy.add_node(1, 0, 7)?;
    refuses(&rt, &mut policy, 1, 0, 5);
    refuses(&rt, &mut policy, 3, 0, 5);
    refuses(&rt, &mut policy, 2, 2, 5);
    Ok(())
}

// Every conversation.
fn any() -> Result<Selector, Fail> {
    let prefix = Prefix::new(Address(0), 0).ok_or("no prefix")?;
    Ok(Selector::Ip(IpRule {
        source: prefix,
        destination: prefix,
        protocol: None,
        class: Class::One,
        mode: Mode::Blind,
    }))
}

// Rules for conversations and for stations count together.
#[test]
fn sixty_four_rules(rt: HostRuntime) -> Result<(), Fail> {
    let mut policy: Policy<u32> = Policy::new(rt.alloc());
    let ip = any()?;
    for _ in 0..32 {
        policy.add_rule(ip, 0, 7)?;
        policy.add_rule(Selector::Mac(None), 0, 7)?;
    }
    assert_eq!(rt; refused(policy.add_rule(ip, 0, 7)), Some(7));
    assert_eq!(rt;
        refused(policy.add_rule(Selector::Mac(None), 0, 7)),
        Some(7)
    );
    assert_eq!(rt; policy.rules.len(), 64);
    Ok(())
}

#[test]
fn rule_under_no_node(rt: HostRuntime) {
    let mut policy: Policy<u32> = Policy::new(rt.alloc());
    assert_eq!(rt;
        refused(policy.add_rule(Selector::Mac(None), 1, 7)),
        Some(5)
    );
    assert_eq!(rt; policy.rules.len(), 0);
}
