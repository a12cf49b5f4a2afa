//! Values of attributes (XML 1.0, production 10 and section 3.3.3).

ghost use Rattle.std.specs.Prelude.{◌≡◌};
ghost use Rattle.std.specs.Str.{chars};
ghost use Rattle.std.specs.String.{string_bytes};
ghost use Rattle.xml_tokenizer.specs.Runs.{with_front};
ghost use Rattle.xml_tokenizer.specs.Steps.{Gives, Reads};
ghost use Rattle.xml_tokenizer.specs.Values.{equals_at, quote_at, past_feed, special_at, tail_at, value_at};

use crate::classes::Class;
use crate::references::reference_of;
use crate::runs::{after, after_char, next_char, past_run, run, width_of};
use crate::searches::value_text;
use crate::stops::Miss;
use std::alloc::Global;
use xmp_values::{Bytes, Text};

/// `=` in white space.
#[tactic(auto, unfolding(crate::specs::Values::equals_at))]
pub fn past_equals(text: &str) -> Option<&str>
    ensures { Reads (λ x. chars x.now) result (equals_at (chars text.now)) }
{
    let rest = after("=", past_run(Class::Blank, text))?;
    Some(past_run(Class::Blank, rest))
}

/// Either quote.
#[tactic(auto, unfolding(crate::specs::Values::quote_at))]
pub fn quote_of(text: &str) -> Option<(char, &str)>
    ensures { Reads (λ x. (x.0, chars x.1.now)) result (quote_at (chars text.now)) }
{
    match next_char(text) {
        Some((c, rest)) if c == '"' || c == '\'' => Some((c, rest)),
        _ => None,
    }
}

/// The text without a LF at its front.
pub fn after_feed(text: &str) -> &str
    ensures { chars result.now ≡ past_feed (chars text.now) }
{
    match next_char(text) {
        Some(('\n', rest)) => rest,
        _ => text,
    }
}

/// What isn't read as it is written.
#[tactic(auto, unfolding(crate::specs::Values::special_at))]
fn special_of(text: &str) -> Option<(char, &str)>
    ensures { Reads (λ x. (x.0, chars x.1.now)) result (special_at (chars text.now)) }
{
    match next_char(text) {
        Some(('&', rest)) => reference_of(rest),
        Some(('\r', rest)) => Some((' ', after_feed(rest))),
        Some(('\t' | '\n', rest)) => Some((' ', rest)),
        _ => None,
    }
}

/// The bytes so far with those of the value's other part.
fn tail_of<'p>(
    front: String,
    quote: char,
    steps: usize,
    text: &'p str,
) -> Result<(String, &'p str), Miss>
    ensures { Gives (λ x. (string_bytes x.0, chars x.1.now)) result (with_front (string_bytes front) (tail_at steps quote (chars text.now))) }
{
    let mut owned = front;
    let mut rest = text;
    for _ in 0..steps {
        if let Some(next) = after_char(quote, rest) {
            return Ok((owned, next));
        }
        let Some((c, literal)) = special_of(rest) else {
            return Err(Miss::Nothing);
        };
        let (plain, next) = run(Class::Value(quote), literal);
        owned.push(c)?;
        owned.push_str(plain)?;
        rest = next;
    }
    Err(Miss::Nothing)
}

/// A value after its first quote, up to its second.
#[tactic(auto, unfolding(crate::specs::Values::value_at))]
pub fn value_of(alloc: Global, quote: char, text: &str) -> Result<(Text<'_>, &str), Miss>
    ensures { Gives (λ x. (x.0, chars x.1.now)) result (value_at quote (chars text.now)) }
{
    let (plain, rest) = value_text(quote, text);
    if let Some(next) = after_char(quote, rest) {
        return Ok((Text::raw(plain.as_bytes()), next));
    }
    let front = String::from_str(alloc, plain)?;
    let (owned, next) = tail_of(front, quote, width_of(text), rest)?;
    let value = Text::own(alloc, Bytes::from_vec(owned.into_bytes()))?;
    Ok((value, next))
}
