//! How a path is spelled: `prefix:local`, and any number of steps, each from its mark up to the next.
//!
//! `/prefix:local` a field | `/?prefix:local` a qualifier | `[N]` an item | `[TAG]` the first of a language
ghost use Rattle.std.specs.Prelude.{◌≡◌, ◌+◌, ◌≤◌, ◌<◌, length, take, drop, IfOk};
ghost use Rattle.std.specs.Option.{option_copied};
ghost use Rattle.std.specs.List.{position_or_len};
ghost use Rattle.xmp_paths.specs.Grammar.{is_name, is_colon, prefixed, bracketed, member_step, item_step, spelled_step, is_mark, spelled_steps, pieces, spelled};

use crate::numbers::{is_lang_tag, place_of_number};
use std::alloc::Global;
use xmp_values::{Memory, Sequence, Text};

/// A name as it is spelled: `prefix:local`.
#[derive(Drop)]
pub struct Prefixed<'t> {
    pub prefix: Text<'t>,
    pub local: Text<'t>,
}

/// A step as it is spelled.
#[derive(Drop)]
pub enum SpelledStep<'t> {
    Field(Prefixed<'t>),
    Qualifier(Prefixed<'t>),
    /// The item at a place, from 0.
    Item(usize),
    Tag(Text<'t>),
}

/// A path as it is spelled.
#[derive(Drop)]
pub struct Spelling<'t> {
    pub first: Prefixed<'t>,
    pub steps: Sequence<SpelledStep<'t>>,
}

/// Whether the bytes are a name without colon.
pub fn is_prefix(bytes: &[u8]) -> bool
    ensures { result ≡ is_name bytes.now }
{
    xmp_values::is_name(bytes)
}

/// The place of the first colon, or the length where there is none.
fn colon_at(text: &[u8]) -> usize
    ensures first { result ≡ position_or_len is_colon text.now }
    ensures within { result ≤ length text.now }
{
    for at in 0..text.len() {
        if text[at] == b':' {
            return at;
        }
    }
    text.len()
}

/// The prefix and the local part of `prefix:local`, both of them names.
pub fn prefixed_name<'t>(text: &'t [u8]) -> Option<Prefixed<'t>>
    ensures { result ≡ prefixed text.now }
{
    let colon = colon_at(text);
    if colon == text.len() {
        return None;
    }
    let prefix = &text[..colon];
    let local = &text[colon + 1..];
    if is_prefix(prefix) && is_prefix(local) {
        let prefix = Text::raw(prefix);
        let local = Text::raw(local);
        Some(Prefixed { prefix, local })
    } else {
        None
    }
}

/// What stands before a `]` at the end.
fn bracketed(text: &[u8]) -> Option<&[u8]>
    ensures { option_copied result ≡ bracketed text.now }
{
    if text.is_empty() {
        return None;
    }
    let last = text.len() - 1;
    if text[last] == b']' {
        Some(&text[..last])
    } else {
        None
    }
}

/// A step by its text after `/`.
fn member_step<'t>(text: &'t [u8]) -> Option<SpelledStep<'t>>
    ensures { result ≡ member_step text.now }
{
    match text {
        [] => None,
        [b'?', name @ ..] => match prefixed_name(name) {
            Some(name) => Some(SpelledStep::Qualifier(name)),
            None => None,
        },
        _ => match prefixed_name(text) {
            Some(name) => Some(SpelledStep::Field(name)),
            None => None,
        },
    }
}

/// A step by its text between brackets.
fn item_step<'t>(text: &'t [u8]) -> Option<SpelledStep<'t>>
    ensures { result ≡ item_step text.now }
{
    if is_lang_tag(text) {
        return Some(SpelledStep::Tag(Text::raw(text)));
    }
    match place_of_number(text) {
        Some(at) => Some(SpelledStep::Item(at)),
        None => None,
    }
}

/// A step by its text, which begins with its mark.
fn spelled_step<'t>(text: &'t [u8]) -> Option<SpelledStep<'t>>
    ensures { result ≡ spelled_step text.now }
{
    match text {
        [] => None,
        [b'/', rest @ ..] => member_step(rest),
        [_, rest @ ..] => match bracketed(rest) {
            Some(inner) => item_step(inner),
            None => None,
        },
    }
}

/// Whether a step begins at the byte.
fn is_mark(byte: u8) -> bool
    ensures { result ≡ is_mark byte }
{
    byte == b'/' || byte == b'['
}

/// The place of the first mark, or the length where there is none.
fn mark_at(text: &[u8]) -> usize
    ensures first { result ≡ position_or_len is_mark text.now }
    ensures within { result ≤ length text.now }
{
    for at in 0..text.len() {
        if is_mark(text[at]) {
            return at;
        }
    }
    text.len()
}

/// The text of the step that begins at a place.
fn piece_at(text: &[u8], at: usize) -> &[u8]
    requires { at < length text.now }
    ensures { result.now ≡ take (1 + position_or_len is_mark (drop (1 + at) text.now)) (drop at text.now) }
{
    let length = mark_at(&text[at + 1..]);
    &text[at..at + 1 + length]
}

/// The steps of a text; None where one isn't of the grammar.
fn spelled_steps<'t>(
    alloc: Global,
    text: &'t [u8],
) -> Result<Option<Sequence<SpelledStep<'t>>>, Memory>
    ensures { IfOk result (λ steps. steps ≡ spelled_steps (pieces text.now)) }
{
    let mut steps = Sequence::new(alloc);
    for at in 0..text.len() {
        if is_mark(text[at]) {
            match spelled_step(piece_at(text, at)) {
                Some(step) => steps.push(step)?,
                None => return Ok(None),
            }
        }
    }
    Ok(Some(steps))
}

/// The path that a text spells; None exactly where it isn't of the grammar.
pub fn spelled<'t>(alloc: Global, text: &'t [u8]) -> Result<Option<Spelling<'t>>, Memory>
    ensures { IfOk result (λ spelling. spelling ≡ spelled text.now) }
{
    let Some(first) = prefixed_name(&text[..mark_at(text)]) else {
        return Ok(None);
    };
    match spelled_steps(alloc, text)? {
        Some(steps) => Ok(Some(Spelling { first, steps })),
        None => Ok(None),
    }
}
