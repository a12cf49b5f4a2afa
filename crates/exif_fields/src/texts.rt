//! The texts of values.
ghost use Rattle.std.specs.Prelude.{◌≡◌, ◌<◌, ◌≤◌, ◌++◌, [], ◌∷◌, IfNone, IfOk, IfSome, OnOk, not, length};
ghost use Rattle.std.specs.List.{after_first, before_first, filter, position_or_len, prefix_len, suffix_len};
ghost use Rattle.std.specs.Option.{option_copied};
ghost use Rattle.exif_fields.specs.Values.{value_in};
ghost use Rattle.exif_fields.specs.Fields.{copyright_of, creators_of, is_empty, is_semicolon, is_space, is_zero, names_in, one_text, some_texts, text_in, text_of, trimmed, without_last_spaces};

use crate::raw::RawExif;
use field_values::field_text;
use std::alloc::Global;
use xmp_values::{Bytes, Memory, Sequence};

/// The text of a tag's value, up to its first zero byte.
#[tactic(auto, unfolding(crate::specs::Fields::text_in))]
pub(crate) fn text_in(alloc: Global, raw: &RawExif, tag: u16) -> Result<Option<Bytes>, Memory>
    ensures { IfOk result (λ text. text ≡ text_in raw.now tag) }
{
    match raw.value(tag) {
        Some(value) => field_text(alloc, before_zero(value)),
        None => Ok(None),
    }
}

/// Copyright: the photographer's part, or where that is blank the editor's, after a zero byte.
pub(crate) fn copyright(alloc: Global, raw: &RawExif) -> Result<Option<Bytes>, Memory>
    ensures { IfOk result (λ text. text ≡ copyright_of (value_in raw.now 0x8298)) }
{
    let Some(value) = raw.value(0x8298) else {
        return Ok(None);
    };
    match field_text(alloc, before_zero(value))? {
        Some(text) => Ok(Some(text)),
        None => field_text(alloc, before_zero(after_zero(value))),
    }
}

/// The bytes before the first zero byte.
fn before_zero(value: &[u8]) -> &[u8]
    ensures { result.now ≡ before_first is_zero value.now }
{
    &value[..first_zero(value)]
}

/// The bytes after the first zero byte; none where there is none.
fn after_zero(value: &[u8]) -> &[u8]
    ensures { result.now ≡ after_first is_zero value.now }
{
    let end = first_zero(value);
    if end < value.len() {
        &value[end + 1..]
    } else {
        &[]
    }
}

/// Where the first zero byte stands, or the length.
fn first_zero(value: &[u8]) -> usize
    ensures is { result ≡ position_or_len is_zero value.now }
    ensures within { result ≤ length value.now }
{
    value.iter().take_while(|byte| !is_zero(**byte)).count()
}

fn is_zero(byte: u8) -> bool
    ensures { result ≡ is_zero byte }
{
    byte == 0
}

fn is_space(byte: u8) -> bool
    ensures { result ≡ is_space byte }
{
    byte == b' '
}

fn is_semicolon(byte: u8) -> bool
    ensures { result ≡ is_semicolon byte }
{
    byte == b';'
}

/// How many spaces stand at the end of a text.
fn last_spaces(text: &[u8]) -> usize
    ensures is { result ≡ suffix_len is_space text.now }
    ensures within { result ≤ length text.now }
{
    text.iter()
        .rev()
        .take_while(|byte| is_space(**byte))
        .count()
}

/// How many spaces stand at the front of a text.
fn first_spaces(text: &[u8]) -> usize
    ensures is { result ≡ prefix_len is_space text.now }
    ensures within { result ≤ length text.now }
{
    text.iter().take_while(|byte| is_space(**byte)).count()
}

/// A text without the spaces at its end.
pub(crate) fn without_last_spaces(text: &[u8]) -> &[u8]
    ensures { result.now ≡ without_last_spaces text.now }
{
    &text[..text.len() - last_spaces(text)]
}

/// A text without the spaces at its ends.
fn trimmed(text: &[u8]) -> &[u8]
    ensures { result.now ≡ trimmed text.now }
{
    without_last_spaces(&text[first_spaces(text)..])
}

/// Where the first semicolon stands, or the length.
fn first_semicolon(text: &[u8]) -> usize
    ensures is { result ≡ position_or_len is_semicolon text.now }
    ensures within { result ≤ length text.now }
{
    text.iter().take_while(|byte| !is_semicolon(**byte)).count()
}

/// What stands before the first semicolon, and what after it; None where there is none.
fn split_once(text: &[u8]) -> Option<(&[u8], &[u8])>
    ensures none { IfNone result (position_or_len is_semicolon text.now ≡ length text.now) }
    ensures there { IfSome result (λ _. position_or_len is_semicolon text.now < length text.now) }
    ensures before { IfSome result (λ parts. parts.0.now ≡ before_first is_semicolon text.now) }
    ensures after { IfSome result (λ parts. parts.1.now ≡ after_first is_semicolon text.now) }
    ensures shorter { IfSome result (λ parts. length parts.1.now < length text.now) }
{
    let end = first_semicolon(text);
    if end < text.len() {
        Some((&text[..end], &text[end + 1..]))
    } else {
        None
    }
}

/// Artist: the names between semicolons, if there are any.
pub(crate) fn creators(alloc: Global, raw: &RawExif) -> Result<Option<Sequence<Bytes>>, Memory>
    ensures { IfOk result (λ names. names ≡ creators_of (text_in raw.now 0x013B)) }
{
    match text_in(alloc, raw, 0x013b)? {
        Some(text) => Ok(some_texts(names_in(alloc, text.as_slice())?)),
        None => Ok(None),
    }
}

/// The texts, if there are any.
fn some_texts(texts: Sequence<Bytes>) -> Option<Sequence<Bytes>>
    ensures { result ≡ some_texts texts }
{
    if texts.len() == 0 { None } else { Some(texts) }
}

/// The names between semicolons, without spaces at their ends, but for empty ones.
#[tactic(auto, using(crate::proofs::Names::names))]
fn names_in(alloc: Global, text: &[u8]) -> Result<Sequence<Bytes>, Memory>
    ensures { IfOk result (λ names. names ≡ names_in text.now) }
{
    let mut names = Sequence::new(alloc);
    let mut rest = text;
    while let Some((name, after)) = split_once(rest) {
        add_name(alloc, &mut names, trimmed(name))?;
        rest = after;
    }
    add_name(alloc, &mut names, trimmed(rest))?;
    Ok(names)
}

/// Puts a name at the end, unless it is empty.
fn add_name(alloc: Global, names: &mut Sequence<Bytes>, name: &[u8]) -> Result<(), Memory>
    ensures { OnOk result (names.new ≡ names.old ++ filter (λ name. not (is_empty name)) (name.now ∷ [])) }
{
    if !name.is_empty() {
        names.push(Bytes::from_slice(alloc, name)?)?;
    }
    Ok(())
}

/// A value of one text, if there is one.
pub(crate) fn one_text(
    alloc: Global,
    text: Option<Bytes>,
) -> Result<Option<Sequence<Bytes>>, Memory>
    ensures { IfOk result (λ texts. texts ≡ one_text text) }
{
    match text {
        Some(text) => {
            let mut texts = Sequence::new(alloc);
            texts.push(text)?;
            Ok(Some(texts))
        }
        None => Ok(None),
    }
}
