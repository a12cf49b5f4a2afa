//! Tags (XML 1.0, productions 40 to 44).

ghost use Rattle.std.specs.Prelude.{◌≡◌};
ghost use Rattle.std.specs.Str.{chars};
ghost use Rattle.xml_tokenizer.specs.Runs.{width};
ghost use Rattle.xml_tokenizer.specs.Steps.{Gives, Reads};
ghost use Rattle.xml_tokenizer.specs.Tags.{attribute_at, attributes_at, close_at, closes, start_at, end_at};

use crate::classes::Class;
use crate::names::qname_of;
use crate::runs::{after, next_char, past_run, width_of};
use crate::stops::Miss;
use crate::values::{past_equals, quote_of, value_of};
use std::alloc::Global;
use xml_grammar::{QName, RawAttribute, Tag};
use xmp_values::Sequence;

#[tactic(auto, unfolding(crate::specs::Tags::attribute_at))]
fn attribute_of(alloc: Global, text: &str) -> Result<(RawAttribute<'_>, &str), Miss>
    ensures { Gives (λ x. (x.0, chars x.1.now)) result (attribute_at (chars text.now)) }
{
    let (name, rest) = qname_of(text).ok_or(Miss::Nothing)?;
    let rest = past_equals(rest).ok_or(Miss::Nothing)?;
    let (quote, rest) = quote_of(rest).ok_or(Miss::Nothing)?;
    let (value, rest) = value_of(alloc, quote, rest)?;
    Ok((RawAttribute { name, value }, rest))
}

/// Whether a tag's end stands here.
fn closes(text: &str) -> bool
    ensures { result ≡ closes (chars text.now) }
{
    matches!(next_char(text), Some(('>' | '/', _)))
}

fn attributes_of(alloc: Global, text: &str) -> Result<(Sequence<RawAttribute<'_>>, &str), Miss>
    ensures { Gives (λ x. (x.0, chars x.1.now)) result (attributes_at (width (chars text.now)) (chars text.now)) }
{
    let mut attributes = Sequence::new(alloc);
    let mut rest = text;
    for _ in 0..width_of(text) {
        let ahead = past_run(Class::Blank, rest);
        if closes(ahead) {
            return Ok((attributes, ahead));
        }
        if width_of(ahead) == width_of(rest) {
            return Err(Miss::Nothing);
        }
        let (attribute, next) = attribute_of(alloc, ahead)?;
        attributes.push(attribute)?;
        rest = next;
    }
    Err(Miss::Nothing)
}

/// `>` or `/>`.
#[tactic(auto, unfolding(crate::specs::Tags::close_at))]
fn close_of(text: &str) -> Option<(bool, &str)>
    ensures { Reads (λ x. (x.0, chars x.1.now)) result (close_at (chars text.now)) }
{
    if let Some(rest) = after("/>", text) {
        return Some((true, rest));
    }
    let rest = after(">", text)?;
    Some((false, rest))
}

/// A start tag or an empty one after its `<`.
#[tactic(auto, unfolding(crate::specs::Tags::start_at))]
pub fn start_of(alloc: Global, text: &str) -> Result<(Tag<'_>, &str), Miss>
    ensures { Gives (λ x. (x.0, chars x.1.now)) result (start_at (chars text.now)) }
{
    let (name, rest) = qname_of(text).ok_or(Miss::Nothing)?;
    let (attributes, rest) = attributes_of(alloc, rest)?;
    let (empty, rest) = close_of(rest).ok_or(Miss::Nothing)?;
    let tag = Tag {
        name,
        attributes,
        empty,
    };
    Ok((tag, rest))
}

/// An end tag after its `</`.
#[tactic(auto, unfolding(crate::specs::Tags::end_at))]
pub fn end_of(text: &str) -> Option<(QName<'_>, &str)>
    ensures { Reads (λ x. (x.0, chars x.1.now)) result (end_at (chars text.now)) }
{
    let (name, rest) = qname_of(text)?;
    let rest = after(">", past_run(Class::Blank, rest))?;
    Some((name, rest))
}
