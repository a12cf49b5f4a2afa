//! The text of a field whose encoding isn't told.
ghost use Rattle.std.specs.Prelude.{◌≡◌, IfOk, encode_utf8_all, ◌++◌};
ghost use Rattle.std.specs.List.{filter, list_all};
ghost use Rattle.std.specs.Str.{chars};
ghost use Rattle.xmp_values.specs.Characters.{is_blank, is_char};
ghost use Rattle.field_values.specs.FieldTexts.{field_text, kept_text, text_unless_blank};

use simdutf8::compat::from_utf8;
use std::alloc::Global;
use xmp_values::{Bytes, Memory, is_blank_byte, is_char, is_char_text};

/// The text of a field's bytes: they are UTF-8 where they are valid, else Latin-1. Characters that
/// XML doesn't have are dropped. None where nothing but white space is left.
#[tactic(auto, unfolding(crate::specs::FieldTexts::field_text))]
pub fn field_text(alloc: Global, bytes: &[u8]) -> Result<Option<Bytes>, Memory>
    ensures { IfOk result (λ text. text ≡ field_text bytes.now) }
{
    let text = kept_text(alloc, bytes)?;
    Ok(text_unless_blank(text))
}

/// The text, if it has more than white space.
fn text_unless_blank(text: Bytes) -> Option<Bytes>
    ensures { result ≡ text_unless_blank text }
{
    if is_blank_text(text.as_slice()) {
        None
    } else {
        Some(text)
    }
}

/// Whether a text is white space alone.
fn is_blank_text(text: &[u8]) -> bool
    ensures { result ≡ list_all is_blank text.now }
{
    text.iter().all(|byte| is_blank_byte(*byte))
}

/// The characters of the bytes that XML has, in UTF-8.
fn kept_text(alloc: Global, bytes: &[u8]) -> Result<Bytes, Memory>
    ensures { IfOk result (λ text. text ≡ kept_text bytes.now) }
{
    match from_utf8(bytes) {
        Ok(text) => kept_characters(alloc, text),
        Err(_) => kept_latin(alloc, bytes),
    }
}

/// The characters of a text that XML has, which mostly are all of them.
fn kept_characters(alloc: Global, text: &str) -> Result<Bytes, Memory>
    ensures { IfOk result (λ kept. kept ≡ encode_utf8_all (filter is_char (chars text.now))) }
{
    if is_char_text(text.as_bytes()) {
        return Ok(Bytes::from_slice(alloc, text.as_bytes())?);
    }
    filtered_characters(alloc, text)
}

/// The characters of a text that XML has, one by one.
fn filtered_characters(alloc: Global, text: &str) -> Result<Bytes, Memory>
    ensures { IfOk result (λ kept. kept ≡ encode_utf8_all (filter is_char (chars text.now))) }
{
    let kept: String = text.chars().filter(|c| is_char(*c)).collect(alloc)?;
    Ok(Bytes::from_vec(kept.into_bytes()))
}

/// The characters of Latin-1 that XML has, in UTF-8.
fn kept_latin(alloc: Global, bytes: &[u8]) -> Result<Bytes, Memory>
    ensures { IfOk result (λ kept. kept ≡ encode_utf8_all (filter is_char bytes.now)) }
{
    let characters = bytes.iter().map(|byte| char::from(*byte));
    let kept: String = characters.filter(|c| is_char(*c)).collect(alloc)?;
    Ok(Bytes::from_vec(kept.into_bytes()))
}
