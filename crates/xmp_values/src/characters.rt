//! The characters of XML 1.0 (fifth edition), productions 2 to 5, the names without the colon.
ghost use Rattle.std.specs.Prelude.{◌≡◌, ◌≤◌, ◌↔◌, IsTrue, length, chars};
ghost use Rattle.std.specs.List.{list_all, prefix_len};
ghost use Rattle.xmp_values.specs.Characters.{is_char, is_blank, is_name_start, is_name_char, is_name_of, IsCharText, IsName};

use std::str::from_utf8;

/// Char, production 2.
#[tactic(auto, unfolding(crate::specs::Characters::is_char))]
pub fn is_char(c: char) -> bool
    ensures { result ≡ is_char c }
{
    matches!(
        c,
        '\u{9}'..='\u{A}'
            | '\u{D}'
            | '\u{20}'..='\u{D7FF}'
            | '\u{E000}'..='\u{FFFD}'
            | '\u{10000}'..='\u{10FFFF}'
    )
}

/// White space, production 3.
#[tactic(auto, unfolding(crate::specs::Characters::is_blank))]
pub fn is_blank(c: char) -> bool
    ensures { result ≡ is_blank c }
{
    matches!(c, '\t' | '\n' | '\r' | ' ')
}

/// White space, production 3, in UTF-8, where each of it is one byte.
pub fn is_blank_byte(byte: u8) -> bool
    ensures { result ≡ is_blank byte }
{
    is_blank(char::from(byte))
}

/// How many bytes of white space stand at the front.
pub fn leading_blanks(text: &[u8]) -> usize
    ensures count { result ≡ prefix_len is_blank text.now }
    ensures within { result ≤ length text.now }
{
    text.iter().take_while(|byte| is_blank_byte(**byte)).count()
}

/// NameStartChar without the colon, production 4.
#[tactic(auto, unfolding(crate::specs::Characters::is_name_start))]
pub fn is_name_start(c: char) -> bool
    ensures { result ≡ is_name_start c }
{
    matches!(
        c,
        'A'..='Z'
            | '_'
            | 'a'..='z'
            | '\u{C0}'..='\u{D6}'
            | '\u{D8}'..='\u{F6}'
            | '\u{F8}'..='\u{2FF}'
            | '\u{370}'..='\u{37D}'
            | '\u{37F}'..='\u{1FFF}'
            | '\u{200C}'..='\u{200D}'
            | '\u{2070}'..='\u{218F}'
            | '\u{2C00}'..='\u{2FEF}'
            | '\u{3001}'..='\u{D7FF}'
            | '\u{F900}'..='\u{FDCF}'
            | '\u{FDF0}'..='\u{FFFD}'
            | '\u{10000}'..='\u{EFFFF}'
    )
}

/// NameChar without the colon, production 4a.
#[tactic(auto, unfolding(crate::specs::Characters::is_name_char))]
pub fn is_name_char(c: char) -> bool
    ensures { result ≡ is_name_char c }
{
    is_name_start(c)
        || matches!(
            c,
            '-' | '.' | '0'..='9' | '\u{B7}' | '\u{300}'..='\u{36F}' | '\u{203F}'..='\u{2040}'
        )
}

/// Whether a text has no character but Chars.
fn has_chars_alone(text: &str) -> bool
    ensures { result ≡ list_all is_char (chars text.now) }
{
    text.chars().all(is_char)
}

/// Whether each character of a text may stand in a name.
fn has_name_chars_alone(text: &str) -> bool
    ensures { result ≡ list_all is_name_char (chars text.now) }
{
    text.chars().all(is_name_char)
}

/// Whether a text is a name without colon.
fn is_name_text(text: &str) -> bool
    ensures { result ≡ is_name_of (chars text.now) }
{
    let mut characters = text.chars();
    match characters.next() {
        Some(first) => is_name_start(first) && has_name_chars_alone(characters.as_str()),
        None => false,
    }
}

/// Whether the bytes are the UTF-8 of Chars.
pub fn is_char_text(bytes: &[u8]) -> bool
    ensures { IsTrue result ↔ IsCharText bytes.now }
{
    match from_utf8(bytes) {
        Ok(text) => has_chars_alone(text),
        Err(_) => false,
    }
}

/// Whether the bytes are the UTF-8 of a name without colon: Name of XML 1.0, production 5, as
/// NCName of Namespaces in XML 1.0 cuts it.
pub fn is_name(bytes: &[u8]) -> bool
    ensures { IsTrue result ↔ IsName bytes.now }
{
    match from_utf8(bytes) {
        Ok(text) => is_name_text(text),
        Err(_) => false,
    }
}
