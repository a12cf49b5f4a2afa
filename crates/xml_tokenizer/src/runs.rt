//! Runs of characters, and given words.

ghost use Rattle.std.specs.Prelude.{◌≡◌, ◌<◌, ◌≤◌, [], ◌∷◌, ◌++◌, true, length, Some, None, MatchOption, IfNone, IfSome, encode_utf8, encode_utf8_all};
ghost use Rattle.std.specs.List.{prefix_len};
ghost use Rattle.std.specs.Str.{chars};
ghost use Rattle.xml_tokenizer.specs.Classes as classes;
ghost use Rattle.xml_tokenizer.specs.Runs.{Passes, taken, past, after, begins, starts_with, is_ascii, width};

use crate::classes::{Class, has, is_sure};

/// The first character, and the text after it.
pub fn next_char(text: &str) -> Option<(char, &str)>
    ensures empty { IfNone result (text.now ≡ []) }
    ensures none { IfNone result (chars text.now ≡ []) }
    ensures some { IfSome result (λ x. (text.now ≡ encode_utf8 x.0 ++ x.1.now) × (chars text.now ≡ x.0 ∷ chars x.1.now) × (length x.1.now < length text.now)) }
{
    let mut it = text.chars();
    match it.next() {
        Some(c) => Some((c, it.as_str())),
        None => None,
    }
}

/// How many bytes the text is.
pub fn width_of(text: &str) -> usize
    ensures { result ≡ width (chars text.now) }
{
    text.len()
}

/// How many bytes at the front tell by themselves that their characters are of the class.
#[inline(always)]
fn sure_len(class: Class, bytes: &[u8]) -> usize
    ensures run { result ≡ prefix_len (classes.is_sure class) bytes.now }
    ensures within { result ≤ length bytes.now }
{
    bytes
        .iter()
        .take_while(|byte| is_sure(class, **byte))
        .count()
}

/// The text after those bytes.
#[inline(always)]
fn past_sure(class: Class, text: &str) -> &str
    ensures { Passes (classes.has class) text.now result.now }
{
    let (_, rest) = text.split_at(sure_len(class, text.as_bytes()));
    rest
}

/// The text after the longest run.
#[inline(always)]
pub fn past_run(class: Class, text: &str) -> &str
    ensures parts { text.now ≡ encode_utf8_all (taken (classes.has class) (chars text.now)) ++ result.now }
    ensures rest { chars result.now ≡ past (classes.has class) (chars text.now) }
{
    let mut rest = text;
    for _ in 0..text.len() {
        let unsure = past_sure(class, rest);
        let Some((c, next)) = next_char(unsure) else {
            return unsure;
        };
        if !has(class, c) {
            return unsure;
        }
        rest = next;
    }
    rest
}

/// The longest run, and the text after it.
#[inline(always)]
pub fn run(class: Class, text: &str) -> (&str, &str)
    ensures front { result.0.now ≡ encode_utf8_all (taken (classes.has class) (chars text.now)) }
    ensures rest { chars result.1.now ≡ past (classes.has class) (chars text.now) }
{
    let rest = past_run(class, text);
    text.split_at(text.len() - rest.len())
}

/// Whether the text begins with a character of the class.
pub fn starts_with(class: Class, text: &str) -> bool
    ensures { result ≡ starts_with (classes.has class) (chars text.now) }
{
    match next_char(text) {
        Some((c, _)) => has(class, c),
        None => false,
    }
}

/// The text after an ASCII word, where it begins so.
pub fn after<'p>(word: &str, text: &'p str) -> Option<&'p str>
    requires { is_ascii word.now ≡ true }
    ensures { MatchOption result (after word.now (chars text.now) ≡ None) (λ x. after word.now (chars text.now) ≡ Some (chars x.now)) }
{
    text.strip_prefix(word)
}

pub fn begins(word: &str, text: &str) -> bool
    requires { is_ascii word.now ≡ true }
    ensures { result ≡ begins word.now (chars text.now) }
{
    after(word, text).is_some()
}

/// The text after a character.
pub fn after_char(c: char, text: &str) -> Option<&str>
    ensures { MatchOption result (after (c ∷ []) (chars text.now) ≡ None) (λ x. after (c ∷ []) (chars text.now) ≡ Some (chars x.now)) }
{
    match next_char(text) {
        Some((first, rest)) if first == c => Some(rest),
        _ => None,
    }
}
