// The words of a text, and the number that a word writes.
ghost use Rattle.std.specs.Prelude.{◌≡◌, [], ◌∷◌, MatchOption};
ghost use Rattle.colour.specs.Words.{blank, words, numeral};

use std::str::from_utf8;

// Blanks part words: spaces and tabs.
fn is_blank(b: u8) -> bool
    ensures { result ≡ blank b }
{
    b == b' ' || b == b'\t'
}

// The first word, and the text behind it.
pub fn next_word(text: &[u8]) -> Option<(&[u8], &[u8])>
    ensures { MatchOption result (words text.now ≡ []) (λ p. words text.now ≡ p.0.now ∷ words p.1.now) }
{
    let start = text.iter().position(|b| !is_blank(*b))?;
    let text = &text[start..];
    let end = text.iter().position(|b| is_blank(*b));
    Some(text.split_at(end.unwrap_or(text.len())))
}

// Decimal digits only, with a value below 2^64.
pub fn number(word: &[u8]) -> Option<u64>
    ensures { result ≡ numeral word.now }
{
    // Behind `.ok()?` a proof no longer knows what bytes are no text.
    let Ok(text) = from_utf8(word) else {
        return None;
    };
    if text.starts_with('+') {
        return None;
    }
    text.parse().ok()
}
