//! Laws over the definitions: functions that do nothing, each with a law as its contract.
ghost use Rattle.std.specs.Prelude.{◌≡◌, ◌≤◌, ℕ, List};
ghost use Rattle.xmp_values.specs.declared.hints.Hint.{Hint};
ghost use Rattle.xml_grammar.specs.declared.elements.Element.{Element};
ghost use Rattle.xml_grammar.specs.Documents.{IsDocument};
ghost use Rattle.xml_grammar.specs.Heights.{height};
ghost use Rattle.xmp_rdf.specs.Meanings.{reading_within, reading};

/// What reading a document gives is the same for every number of levels that is at least its
/// height: no number of levels need be believed.
pub fn settled_reading()
    ensures { (text : List ℕ) (root : Element) (hints : List Hint) (levels : ℕ) → IsDocument text root hints → height root ≤ levels → reading_within levels root hints ≡ reading root hints }
{}
