// The words that choose: a protocol, a class, a mode.
ghost use Rattle.std.specs.Prelude.{◌≡◌};
ghost use Rattle.packet.specs.Kinds.{class_of};
ghost use Rattle.policy_words.specs.Words.{Reads};
ghost use Rattle.policy_words.specs.Choices.{protocol_of, class_word_of, mode_of};

use crate::causes::Cause;
use crate::words::{any_or, byte, count_as, keyword};
use meter::measures::Mode;
use packet::kinds::Class;

// The protocol that is the next word, or any.
pub fn protocol_word(text: &[u8]) -> Result<(Option<u8>, &[u8]), Cause>
    ensures { Reads result (protocol_of text.now) }
{
    any_or(text, |text| count_as(text, byte))
}

// The class of a number of any size.
fn class_of(value: u64) -> Option<Class>
    ensures { result ≡ class_of value }
{
    Class::try_from(u8::try_from(value).ok()?).ok()
}

// The class that is the next word, 1 to 4.
pub fn class_word(text: &[u8]) -> Result<(Class, &[u8]), Cause>
    ensures { Reads result (class_word_of text.now) }
{
    count_as(text, |n| class_of(n).ok_or(Cause::Form))
}

// The mode that is the next word.
pub fn mode_word(text: &[u8]) -> Result<(Mode, &[u8]), Cause>
    ensures { Reads result (mode_of text.now) }
{
    if let Ok(rest) = keyword(text, b" blind") {
        return Ok((Mode::Blind, rest));
    }
    let rest = keyword(text, b" aware")?;
    Ok((Mode::Aware, rest))
}
