// Which rule a key has: the first that is for it.
ghost use Rattle.std.specs.Prelude.{◌≡◌, map};
ghost use Rattle.policy.specs.Rules.{refusal_number, prefix_of, in_prefix, ip_matches, matches, first_for, First};

use crate::policies::Policy;
use crate::rules::{IpRule, Prefix, Refusal, Rule, Selector};
use packet::kinds::{Address, Conversation, Key};

// How many bits an address has.
pub const ADDRESS_BITS: u8 = 32;

impl Refusal {
    pub fn number(self) -> u8
        ensures { result ≡ refusal_number self }
    {
        match self {
            Refusal::WrongNumber | Refusal::UnknownParent => 5,
            Refusal::TooDeep => 6,
            Refusal::TooManyNodes | Refusal::TooManyRules => 7,
        }
    }
}

impl Prefix {
    // None where there are too many bits, or one beyond them is set.
    pub fn new(address: Address, length: u8) -> Option<Prefix>
        ensures { result ≡ prefix_of address length }
    {
        let beyond = ADDRESS_BITS.checked_sub(length)?;
        let fits = u64::from(address.0) % (1u64 << beyond) == 0;
        fits.then_some(Prefix { address, length })
    }

    // Whether the address has the first bits of the prefix.
    pub fn holds(self, address: Address) -> bool
        ensures { result ≡ in_prefix self address }
    {
        let beyond = ADDRESS_BITS.saturating_sub(self.length);
        u64::from(address.0) >> beyond == u64::from(self.address.0) >> beyond
    }
}

impl IpRule {
    // Source, then destination, then protocol.
    pub fn matches(&self, key: Conversation) -> bool
        ensures { result ≡ ip_matches self.now key }
    {
        self.source.holds(key.source)
            && self.destination.holds(key.destination)
            && self.protocol.is_none_or(|wanted| wanted == key.protocol)
    }
}

impl Selector {
    // A rule for conversations is for no station, and the other way round.
    pub fn matches(&self, key: Key) -> bool
        ensures { result ≡ matches self.now key }
    {
        match (*self, key) {
            (Selector::Ip(rule), Key::Conversation(conversation)) => rule.matches(conversation),
            (Selector::Mac(wanted), Key::Station(station)) => {
                wanted.is_none_or(|one| one == station)
            }
            (Selector::Ip(_), Key::Station(_)) | (Selector::Mac(_), Key::Conversation(_)) => false,
        }
    }
}

// The first rule for the key.
pub fn first_for<M: Copy>(rules: &[Rule<M>], key: Key) -> Option<usize>
    ensures value { result ≡ first_for (map (λ x. x.selector) rules.now) key }
    ensures first { First (map (λ x. x.selector) rules.now) key result }
{
    rules.iter().position(|rule| rule.selector.matches(key))
}

impl<M: Copy> Policy<M> {
    // The place of the first rule for the key, from 0. A key that has none is refused by the policer.
    pub fn rule_for(&self, key: Key) -> Option<usize>
        ensures value { result ≡ first_for (map (λ x. x.selector) self.now.rules.items) key }
        ensures first { First (map (λ x. x.selector) self.now.rules.items) key result }
    {
        first_for(&self.rules, key)
    }
}
