//! What documents mean.
use std::marker::Model;
use xmp_tree::Tree;
use xmp_values::{Digits, Hints, Sequence};

/// The place of the element that names each property, in bytes.
pub type Places = Sequence<u64>;

/// What a document means. It has as many places as properties.
#[derive(Drop)]
pub struct Meaning<'p> {
    pub tree: Tree<'p>,
    /// The namespaces that it declares, each with its first prefix.
    pub hints: Hints,
    /// The name of its extended text.
    pub note: Option<Digits>,
    pub places: Places,
}

impl<'p> Model for Meaning<'p> {
    ghost use Rattle.rdf_forms.specs.Meaning.{Meaning as Meant};
    ghost use Rattle.xmp_rdf.specs.Modelled.{meaning_code};

    ghost Value = { Meant };

    ghost coded = { meaning_code };

    ghost use Rattle.std.specs.Prelude.{◌≡◌, length};

    ghost view = { λ m. record { tree = m.tree; hints = m.hints; note = m.note; places = m.places } };

    ghost invariant = { λ m. length m.places ≡ length m.tree.props };
}
