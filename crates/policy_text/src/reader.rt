// A policy: its lines, each ended by a line feed.
ghost use Rattle.std.specs.Prelude.{◌≡◌, ℕ, ◌<◌, ◌≤◌, List, [], ◌∷◌, ◌++◌, length, Ok, Err, MatchResult};
ghost use Rattle.policy.specs.Policies.{parents_of};
ghost use Rattle.policy_text.specs.declared.lines.Line.{Line};
ghost use Rattle.policy_text.specs.declared.reader.PolicyFault.TheVariants.{Memory, At};
ghost use Rattle.policy_text.specs.Texts.{ProfileOk, LineOk};
ghost use Rattle.policy_text.specs.Policies.{longest_line, lined, broken, step_of, IsFirstLine, text_of, LinesOk, Sells, Grown, Answered, Canonical, Gives, First};

use crate::lines::{Line, LineFault};
use crate::rule_lines::read_line;
use kinds::profiles::{AnyMeter, Profile};
use policy::policies::Policy;
use policy::rules::AddError;
use policy_words::causes::Cause;
use std::alloc::Global;

// Where a policy is refused, by line and word from 1, and why. Word 0 is the line as a whole, and line 0 the text: so
// they are printed.
#[derive(Clone, Copy, PartialEq, Eq, Debug)]
pub struct Fault {
    pub line: u64,
    pub word: u8,
    pub cause: Cause,
}

// Why no policy was read.
#[derive(Clone, Copy, PartialEq, Eq, Debug)]
pub enum PolicyFault {
    Memory,
    At(Fault),
}

impl From<Fault> for PolicyFault {
    ghost from_gives = { λ f r. r ≡ At f };

    fn from(fault: Fault) -> PolicyFault {
        PolicyFault::At(fault)
    }
}

// The most bytes of a text.
pub const MOST_BYTES: usize = 65_536;

// Without the line feed.
pub const LONGEST_LINE: usize = 120;

// What a line's reader answered, with the line's number added to its fault.
fn on<T>(line: u64, read: Result<T, LineFault>) -> Result<T, Fault>
    ensures { result ≡ lined line read }
{
    read.map_err(|fault| Fault {
        line,
        word: fault.word,
        cause: fault.cause,
    })
}

// A line without the line feed that ends it.
fn cut(line: &[u8]) -> Result<&[u8], LineFault>
    ensures { MatchResult result (λ p. (line.now ≡ p.now ++ 10 ∷ []) × (length p.now ≤ longest_line)) (λ e. (e ≡ broken) × ((p : List ℕ) → line.now ≡ p ++ 10 ∷ [] → longest_line < length p)) }
{
    let broken = LineFault {
        word: 0,
        cause: Cause::Form,
    };
    let Some(front) = line.strip_suffix(b"\n") else {
        return Err(broken);
    };
    if front.len() > LONGEST_LINE {
        return Err(broken);
    }
    Ok(front)
}

// What the line of that number says.
fn next_line(line: &[u8], number: u64, policy: &Policy<AnyMeter>) -> Result<Line, Fault>
    ensures { (after : List ℕ) → IsFirstLine line.now after → MatchResult result (λ x. step_of number (parents_of policy.now.tree) (length policy.now.rules.items) (line.now ++ after) ≡ Ok (x, after)) (λ e. step_of number (parents_of policy.now.tree) (length policy.now.rules.items) (line.now ++ after) ≡ Err e) }
{
    let front = on(number, cut(line))?;
    on(number, read_line(front, policy))
}

// The unused meter of a profile that was read: its numbers are in range.
fn meter_of(profile: Profile) -> AnyMeter
    requires { ProfileOk profile }
    ensures { Sells profile result }
{
    AnyMeter::new(profile).unwrap()
}

// Adds what a line says. It passed every check as it was read, so that only memory can be wanting.
fn add_line(policy: &mut Policy<AnyMeter>, line: Line) -> Result<(), PolicyFault>
    requires { LineOk (parents_of policy.old.tree) (length policy.old.rules.items) line }
    ensures { MatchResult result (λ _. Grown policy.old policy.new line) (λ e. e ≡ Memory) }
{
    let added = match line {
        Line::Node(node) => policy.add_node(
            u64::from(node.number),
            u64::from(node.parent),
            meter_of(node.profile),
        ),
        Line::Rule(rule) => policy.add_rule(
            rule.selector,
            u64::from(rule.parent),
            meter_of(rule.meter),
        ),
    };
    // no `?`: there would have to be a fault for what cannot be refused here
    match added {
        Ok(()) => Ok(()),
        Err(AddError::NoMemory) => Err(PolicyFault::Memory),
        Err(AddError::Refused(_)) => unreachable(),
    }
}

// The policy of `text`, or its first fault.
fn read_lines(heap: Global, text: &[u8]) -> Result<Policy<AnyMeter>, PolicyFault>
    ensures { Answered text.now result }
{
    if text.len() > MOST_BYTES {
        return Err(PolicyFault::At(Fault {
            line: 0,
            word: 0,
            cause: Cause::Form,
        }));
    }
    let mut policy = Policy::new(heap);
    // as u64: no `From` makes it of a usize
    for (i, line) in text.split_inclusive(|b| *b == b'\n').enumerate() {
        let line = next_line(line, i as u64 + 1, &policy)?;
        add_line(&mut policy, line)?;
    }
    Ok(policy)
}

// The policy that `text` writes, its meters unused, or the first fault. After a fault there is no policy.
pub fn read_policy(heap: Global, text: &[u8]) -> Result<Policy<AnyMeter>, PolicyFault>
    ensures value { Answered text.now result }
    ensures canonical { Canonical text.now result }
    ensures written { (ys : List Line) → text.now ≡ text_of ys → LinesOk [] ys → Gives ys result }
    ensures first { First text.now result }
{
    read_lines(heap, text)
}
