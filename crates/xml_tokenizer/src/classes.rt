//! Classes of characters.

ghost use Rattle.std.specs.Prelude.{◌≡◌};
ghost use Rattle.xml_tokenizer.specs.declared.classes.Class.TheVariants.{Char};
ghost use Rattle.xml_tokenizer.specs.Classes.{has, is_plain, is_value, is_value_byte, is_sure, is_wide};

use xmp_values::{is_blank, is_char, is_name_char};

/// What a run is made of.
#[derive(Clone, Copy, Debug)]
pub enum Class {
    NameChar,
    Blank,
    Decimal,
    Char,
    /// Chars that stand for themselves, but for `]` in the end of a CDATA section.
    Plain,
    /// Chars that stand for themselves between two such quotes.
    Value(char),
}

#[tactic(auto, unfolding(crate::specs::Classes::is_plain))]
fn is_plain(c: char) -> bool
    ensures { result ≡ is_plain c }
{
    is_char(c) && !matches!(c, '<' | '&' | '\r')
}

#[tactic(auto, unfolding(crate::specs::Classes::is_value))]
fn is_value(quote: char, c: char) -> bool
    ensures { result ≡ is_value quote c }
{
    is_char(c) && !(c == '<' || c == '&' || c == quote || c == '\t' || c == '\n' || c == '\r')
}

/// Whether a byte, wherever it stands in UTF-8, is of a Char.
#[tactic(auto, unfolding(crate::specs::Classes::is_sure, xmp_values::specs::Characters::is_char))]
pub fn is_char_byte(byte: u8) -> bool
    ensures { result ≡ is_sure Char byte }
{
    (byte >= 0x20 && byte != 0xEF) || matches!(byte, b'\t' | b'\n' | b'\r')
}

/// Whether a byte that isn't the quote is, wherever it stands in UTF-8, of a character that stands for itself in a value.
#[tactic(auto, unfolding(crate::specs::Classes::is_value_byte, xmp_values::specs::Characters::is_char))]
pub fn is_value_byte(byte: u8) -> bool
    ensures { result ≡ is_value_byte byte }
{
    byte >= 0x20 && byte != 0xEF && byte != b'<' && byte != b'&'
}

#[inline(always)]
pub fn has(class: Class, c: char) -> bool
    ensures { result ≡ has class c }
{
    match class {
        Class::NameChar => is_name_char(c),
        Class::Blank => is_blank(c),
        Class::Decimal => c.is_digit(10),
        Class::Char => is_char(c),
        Class::Plain => is_plain(c),
        Class::Value(quote) => is_value(quote, c),
    }
}

/// Whether all Chars from U+0080 on are of the class.
fn is_wide(class: Class) -> bool
    ensures { result ≡ is_wide class }
{
    match class {
        Class::NameChar | Class::Blank | Class::Decimal => false,
        Class::Char | Class::Plain => true,
        Class::Value(quote) => quote < '\u{80}',
    }
}

/// Whether a byte, wherever it stands in UTF-8, is of a character of the class.
#[tactic(auto, unfolding(crate::specs::Classes::is_sure))]
#[inline(always)]
pub fn is_sure(class: Class, byte: u8) -> bool
    ensures { result ≡ is_sure class byte }
{
    if byte < 128 {
        has(class, byte as char)
    } else {
        is_wide(class) && byte != 0xEF
    }
}
