// The lines: a node, a rule for conversations, a rule for stations.
ghost use Rattle.std.specs.Prelude.{◌≡◌, length};
ghost use Rattle.policy.specs.Policies.{parents_of};
ghost use Rattle.policy_words.specs.Words.{Reads};
ghost use Rattle.policy_text.specs.Lines.{node_room, rule_room, node_line_of, conversations_of, treatment_of, ip_line_of, mac_line_of, line_of};

use crate::lines::{Line, LineFault, NodeLine, at};
use crate::meters::read_meter;
use kinds::profiles::{AnyMeter, Profile};
use meter::measures::Mode;
use packet::kinds::Class;
use policy::policies::Policy;
use policy::rules::{IpRule, Prefix, Rule, Selector};
use policy::tree::Tree;
use policy_words::addresses::{prefix_word, station_word};
use policy_words::causes::Cause;
use policy_words::choices::{class_word, mode_word, protocol_word};
use policy_words::words::{count, keyword};

// There may be one more node.
fn node_room(tree: &Tree) -> Result<(), Cause>
    ensures { result ≡ node_room (parents_of tree.now) }
{
    tree.next_number()?;
    Ok(())
}

// There may be one more rule.
fn rule_room(policy: &Policy<AnyMeter>) -> Result<(), Cause>
    ensures { result ≡ rule_room (length policy.now.rules.items) }
{
    policy.rule_room()?;
    Ok(())
}

// The words of a node's line after the first.
#[tactic(auto, unfolding(crate::specs::Lines::node_line_of, crate::specs::Lines::number_word_of, crate::specs::Lines::under_word_of))]
fn read_node(text: &[u8], tree: &Tree) -> Result<NodeLine, LineFault>
    ensures { result ≡ node_line_of (parents_of tree.now) text.now }
{
    at(1, node_room(tree))?;
    let (number, rest) = at(2, count(text))?;
    let number = at(2, tree.number(number).map_err(Cause::Refused))?;
    let (parent, rest) = at(3, count(rest))?;
    let parent = at(3, tree.under(parent).map_err(Cause::Refused))?;
    let profile = read_meter(rest, 4)?;
    Ok(NodeLine {
        number,
        parent,
        profile,
    })
}

// Source, destination and protocol.
#[tactic(auto, unfolding(crate::specs::Lines::conversations_of))]
fn conversations(text: &[u8]) -> Result<((Prefix, Prefix, Option<u8>), &[u8]), LineFault>
    ensures { Reads result (conversations_of text.now) }
{
    let (source, rest) = at(2, prefix_word(text))?;
    let (destination, rest) = at(3, prefix_word(rest))?;
    let (protocol, rest) = at(4, protocol_word(rest))?;
    Ok(((source, destination, protocol), rest))
}

// Class and mode.
#[tactic(auto, unfolding(crate::specs::Lines::treatment_of))]
fn treatment(text: &[u8]) -> Result<((Class, Mode), &[u8]), LineFault>
    ensures { Reads result (treatment_of text.now) }
{
    let (class, rest) = at(6, class_word(text))?;
    let (mode, rest) = at(7, mode_word(rest))?;
    Ok(((class, mode), rest))
}

// The words after the first of a rule for conversations.
#[tactic(auto, unfolding(crate::specs::Lines::ip_line_of, crate::specs::Lines::known_word_of))]
fn read_ip(text: &[u8], tree: &Tree) -> Result<Rule<Profile>, LineFault>
    ensures { result ≡ ip_line_of (parents_of tree.now) text.now }
{
    let ((source, destination, protocol), rest) = conversations(text)?;
    let (parent, rest) = at(5, count(rest))?;
    let parent = at(5, tree.known(parent).map_err(Cause::Refused))?;
    let ((class, mode), rest) = treatment(rest)?;
    let meter = read_meter(rest, 8)?;
    let selector = Selector::Ip(IpRule {
        source,
        destination,
        protocol,
        class,
        mode,
    });
    Ok(Rule {
        selector,
        parent,
        meter,
    })
}

// The words after the first of a rule for stations.
#[tactic(auto, unfolding(crate::specs::Lines::mac_line_of, crate::specs::Lines::known_word_of))]
fn read_mac(text: &[u8], tree: &Tree) -> Result<Rule<Profile>, LineFault>
    ensures { result ≡ mac_line_of (parents_of tree.now) text.now }
{
    let (station, rest) = at(2, station_word(text))?;
    let (parent, rest) = at(3, count(rest))?;
    let parent = at(3, tree.known(parent).map_err(Cause::Refused))?;
    let meter = read_meter(rest, 4)?;
    Ok(Rule {
        selector: Selector::Mac(station),
        parent,
        meter,
    })
}

// A line behind the nodes and rules of the policy so far.
#[tactic(auto, unfolding(crate::specs::Lines::line_of))]
pub fn read_line(text: &[u8], policy: &Policy<AnyMeter>) -> Result<Line, LineFault>
    ensures { result ≡ line_of (parents_of policy.now.tree) (length policy.now.rules.items) text.now }
{
    if let Ok(rest) = keyword(text, b"node") {
        return Ok(Line::Node(read_node(rest, &policy.tree)?));
    }
    if let Ok(rest) = keyword(text, b"ip") {
        at(1, rule_room(policy))?;
        return Ok(Line::Rule(read_ip(rest, &policy.tree)?));
    }
    let rest = at(1, keyword(text, b"mac"))?;
    at(1, rule_room(policy))?;
    Ok(Line::Rule(read_mac(rest, &policy.tree)?))
}
