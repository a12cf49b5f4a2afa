//! Runs and words that are found by searches.
//!
//! Each end is sought once: what stands before it is taken whole, or read on byte by byte, or is a fault.

ghost use Rattle.std.specs.Prelude.{◌≡◌, ◌<◌, ◌==◌, true, not, length, Some, None, MatchOption, IsTrue, codes, encode_utf8_all};
ghost use Rattle.std.specs.List.{list_all};
ghost use Rattle.std.specs.Str.{chars};
ghost use Rattle.xmp_values.specs.Characters.{is_char};
ghost use Rattle.xml_tokenizer.specs.declared.classes.Class.TheVariants.{Char};
ghost use Rattle.xml_tokenizer.specs.Classes as classes;
ghost use Rattle.xml_tokenizer.specs.Runs.{taken, past, is_ascii, up_to};

use crate::classes::{Class, is_char_byte, is_value_byte};
use crate::runs::{after, past_run, run};
use memchr::{memchr, memchr3, memmem};

/// Whether all bytes tell by themselves that they are of Chars. No byte ends the loop, so that it runs on vectors.
fn are_char_bytes(bytes: &[u8]) -> bool
    ensures { result ≡ list_all (classes.is_sure Char) bytes.now }
{
    let mut sure = true;
    for byte in bytes {
        sure &= is_char_byte(*byte);
    }
    sure
}

fn are_value_bytes(bytes: &[u8]) -> bool
    ensures { result ≡ list_all classes.is_value_byte bytes.now }
{
    let mut sure = true;
    for byte in bytes {
        sure &= is_value_byte(*byte);
    }
    sure
}

/// Whether the text is of Chars alone.
fn are_chars(text: &str) -> bool
    ensures { result ≡ list_all is_char (chars text.now) }
{
    are_char_bytes(text.as_bytes()) || past_run(Class::Char, text).is_empty()
}

/// The text before its first `<`, `&` or CR, and the text from there on.
fn until_markup(text: &str) -> (&str, &str)
    ensures front { chars result.0.now ≡ taken classes.is_literal (chars text.now) }
    ensures rest { chars result.1.now ≡ past classes.is_literal (chars text.now) }
{
    match memchr3(b'<', b'&', b'\r', text.as_bytes()) {
        Some(at) => text.split_at(at),
        None => (text, ""),
    }
}

/// The text before the first byte, and the text from there on.
fn until(byte: u8, text: &str) -> (&str, &str)
    requires { byte < 128 }
    ensures front { chars result.0.now ≡ taken (λ c. not (c == byte)) (chars text.now) }
    ensures rest { chars result.1.now ≡ past (λ c. not (c == byte)) (chars text.now) }
{
    match memchr(byte, text.as_bytes()) {
        Some(at) => text.split_at(at),
        None => (text, ""),
    }
}

/// `run` of plain characters: a search for what ends it, and one look at the bytes before that.
pub fn plain_text(text: &str) -> (&str, &str)
    ensures front { result.0.now ≡ encode_utf8_all (taken classes.is_plain (chars text.now)) }
    ensures rest { chars result.1.now ≡ past classes.is_plain (chars text.now) }
{
    let (front, rest) = until_markup(text);
    if are_char_bytes(front.as_bytes()) {
        return (front, rest);
    }
    run(Class::Plain, text)
}

/// `run` of characters that stand for themselves between such quotes, found as plain text is.
pub fn value_text(quote: char, text: &str) -> (&str, &str)
    ensures front { result.0.now ≡ encode_utf8_all (taken (classes.is_value quote) (chars text.now)) }
    ensures rest { chars result.1.now ≡ past (classes.is_value quote) (chars text.now) }
{
    if quote.is_ascii() {
        let (front, rest) = until(quote as u8, text);
        if are_value_bytes(front.as_bytes()) {
            return (front, rest);
        }
    }
    run(Class::Value(quote), text)
}

/// Whether no `]` stands in the text, and so no `]]>`. A search for one byte is cheap to begin.
pub fn lacks_bracket(text: &str) -> bool
    ensures { IsTrue result → up_to (codes "]]>") (chars text.now) ≡ None }
{
    memchr(b']', text.as_bytes()).is_none()
}

/// The Chars up to a word, and the text after the word.
pub fn up_to<'p>(word: &str, text: &'p str) -> Option<(&'p str, &'p str)>
    requires ascii { is_ascii word.now ≡ true }
    requires some { 0 < length word.now }
    ensures { MatchOption result (up_to word.now (chars text.now) ≡ None) (λ x. up_to word.now (chars text.now) ≡ Some (chars x.0.now, chars x.1.now)) }
{
    let Some(at) = memmem::find(text.as_bytes(), word.as_bytes()) else {
        return None;
    };
    let (inside, stop) = text.split_at(at);
    if !are_chars(inside) {
        return None;
    }
    match after(word, stop) {
        Some(rest) => Some((inside, rest)),
        None => None,
    }
}
