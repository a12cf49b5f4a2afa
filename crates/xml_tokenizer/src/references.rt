//! References (XML 1.0, section 4.1).

ghost use Rattle.std.specs.Prelude.{◌≡◌, ◌≤◌, true, false, MatchOption};
ghost use Rattle.std.specs.Str.{chars};
ghost use Rattle.xml_grammar.specs.Spelling.{is_digit};
ghost use Rattle.xmp_values.specs.Characters.{is_char};
ghost use Rattle.xml_tokenizer.specs.References.{capped_from, starts_digit, entity_at, number_at, reference_at};
ghost use Rattle.xml_tokenizer.specs.Runs.{taken, past};
ghost use Rattle.xml_tokenizer.specs.Steps.{Reads};

use crate::runs::{after, next_char};
use xmp_values::is_char;

/// One more than any character, where numbers stop to grow.
const NO_CHAR: u32 = 0x11_0000;

#[tactic(auto, unfolding(crate::specs::References::entity_at))]
fn entity_of(text: &str) -> Option<(char, &str)>
    ensures { Reads (λ x. (x.0, chars x.1.now)) result (entity_at (chars text.now)) }
{
    if let Some(rest) = after("lt;", text) {
        return Some(('<', rest));
    }
    if let Some(rest) = after("gt;", text) {
        return Some(('>', rest));
    }
    if let Some(rest) = after("amp;", text) {
        return Some(('&', rest));
    }
    if let Some(rest) = after("apos;", text) {
        return Some(('\'', rest));
    }
    let rest = after("quot;", text)?;
    Some(('"', rest))
}

fn starts_digit(base: u32, text: &str) -> bool
    requires low { 2 ≤ base }
    requires high { base ≤ 36 }
    ensures { result ≡ starts_digit base (chars text.now) }
{
    match next_char(text) {
        Some((c, _)) => c.is_digit(base),
        None => false,
    }
}

/// The number of the digits at the front, and the text after them.
fn digits_of(base: u32, text: &str) -> (u32, &str)
    requires low { 2 ≤ base }
    requires high { base ≤ 36 }
    ensures number { result.0 ≡ capped_from base 0 (taken (is_digit base) (chars text.now)) }
    ensures rest { chars result.1.now ≡ past (is_digit base) (chars text.now) }
{
    let mut number = 0;
    let mut rest = text;
    for _ in 0..text.len() {
        let Some((c, next)) = next_char(rest) else {
            return (number, rest);
        };
        let Some(digit) = c.to_digit(base) else {
            return (number, rest);
        };
        number = (number * base + digit).min(NO_CHAR);
        rest = next;
    }
    (number, rest)
}

/// Digits to a Char, and `;`.
#[tactic(auto, unfolding(crate::specs::References::number_at))]
fn number_of(base: u32, text: &str) -> Option<(char, &str)>
    requires low { 2 ≤ base }
    requires high { base ≤ 36 }
    ensures { Reads (λ x. (x.0, chars x.1.now)) result (number_at base (chars text.now)) }
{
    if !starts_digit(base, text) {
        return None;
    }
    let (number, rest) = digits_of(base, text);
    let c = char_of(number)?;
    let rest = after(";", rest)?;
    Some((c, rest))
}

fn char_of(number: u32) -> Option<char>
    ensures { MatchOption result (is_char number ≡ false) (λ c. (c ≡ number) × (is_char number ≡ true)) }
{
    match char::from_u32(number) {
        Some(c) if is_char(c) => Some(c),
        _ => None,
    }
}

/// The reference after its `&`, as the character that it stands for.
#[tactic(auto, unfolding(crate::specs::References::reference_at))]
pub fn reference_of(text: &str) -> Option<(char, &str)>
    ensures { Reads (λ x. (x.0, chars x.1.now)) result (reference_at (chars text.now)) }
{
    let Some(number) = after("#", text) else {
        return entity_of(text);
    };
    match after("x", number) {
        Some(digits) => number_of(16, digits),
        None => number_of(10, number),
    }
}
