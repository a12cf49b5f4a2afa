//! Text from bytes.

ghost use Rattle.std.specs.Prelude.{◌≡◌, ◌↔◌, ◌⊎◌, IsTrue, IsUtf8, IfOk, IfErr};
ghost use Rattle.std.specs.Str.{chars};
ghost use Rattle.xmp_values.specs.declared.rules.Rule.TheVariants.{Utf16, NotUtf8};
ghost use Rattle.xml_grammar.specs.Documents.{IsUtf16, IsFault, after_mark};

use crate::runs::next_char;
use simdutf8::compat::from_utf8;
use xmp_values::Rule;

/// Whether the bytes begin with the mark of UTF-16, in either byte order.
fn is_utf16(bytes: &[u8]) -> bool
    ensures { IsTrue result ↔ IsUtf16 bytes.now }
{
    matches!(bytes, [0xFE, 0xFF, ..] | [0xFF, 0xFE, ..])
}

/// The bytes as a text, or the rule that they break and its place: the text is UTF-16, or it isn't UTF-8.
pub fn text_of(bytes: &[u8]) -> Result<&str, (Rule, u64)>
    ensures text { IfOk result (λ s. (s.now ≡ bytes.now) × IsUtf8 bytes.now × (IsUtf16 bytes.now → ⊥)) }
    ensures fault { IfErr result (λ e. IsFault bytes.now e.0 e.1) }
    ensures kind { IfErr result (λ e. (e.0 ≡ Utf16) ⊎ (e.0 ≡ NotUtf8)) }
{
    if is_utf16(bytes) {
        return Err((Rule::Utf16, 0));
    }
    match from_utf8(bytes) {
        Ok(text) => Ok(text),
        Err(error) => Err((Rule::NotUtf8, error.valid_up_to() as u64)),
    }
}

/// The text after one U+FEFF at its start.
pub fn after_mark(text: &str) -> &str
    ensures { chars result.now ≡ after_mark (chars text.now) }
{
    match next_char(text) {
        Some(('\u{FEFF}', rest)) => rest,
        _ => text,
    }
}
