//! Laws of the definitions. The function does nothing: its clause holds of all bytes.
ghost use Rattle.std.specs.Prelude.{◌≡◌, ℕ, List, Some};
ghost use Rattle.xmp_values.specs.Characters.{IsCharText};
ghost use Rattle.field_values.specs.FieldTexts.{field_text};

/// The text of a field is made of XML's Chars, so that it may stand in a tree.
pub fn texts_are_chars()
    ensures { (bytes text : List ℕ) → field_text bytes ≡ Some text → IsCharText text }
{}
