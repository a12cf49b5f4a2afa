//! A law over the definitions alone, which stands here because the reader's steps prove it.
ghost use Rattle.std.specs.Prelude.{◌⊎◌, List, ℕ};
ghost use Rattle.xmp_values.specs.declared.hints.Hint.{Hint};
ghost use Rattle.xmp_values.specs.declared.rules.Rule.{Rule};
ghost use Rattle.xml_grammar.specs.declared.elements.Element.{Element};
ghost use Rattle.xml_grammar.specs.Documents.{IsDocument, IsFault};

/// Every text has a document or a first fault.
pub fn document_or_fault()
    ensures { (text : List ℕ) → ((root : Element) × (hints : List Hint) × IsDocument text root hints) ⊎ ((r : Rule) × (place : ℕ) × IsFault text r place) }
{}
