//! Documents.

ghost use Rattle.std.specs.Prelude.{◌≡◌};
ghost use Rattle.xmp_values.specs.Hints.{AreValid};
ghost use Rattle.xml_grammar.specs.Sound.{IsSound};

use std::marker::Model;
use xml_grammar::Element;
use xmp_values::Hints;

/// The document of a text: its root, and the first declaration of each namespace.
#[derive(Drop)]
pub struct Doc<'p> {
    pub(crate) root: Element<'p>,
    pub(crate) declared: Hints,
}

impl<'p> Model for Doc<'p> {
    ghost use Rattle.xmp_xml.specs.Documents.{Document, document_code};

    ghost Value = { Document };

    ghost coded = { document_code };

    ghost use Rattle.xml_grammar.specs.Sound.{IsSound};

    ghost view = { λ d. record { root = d.root; declared = d.declared } };

    ghost invariant = { λ d. IsSound d.root };
}

impl<'p> Doc<'p> {
    /// The root, and in it all elements.
    pub fn root(&self) -> &Element<'p>
        ensures root { result.now ≡ self.now.root }
        ensures sound { IsSound self.now.root }
    {
        &self.root
    }

    /// The first declaration of each namespace, in the order of the text.
    pub fn declared(&self) -> &Hints
        ensures { result.now ≡ self.now.declared }
    {
        &self.declared
    }

    /// The same hints, moved.
    pub fn into_declared(self) -> Hints
        ensures { result ≡ self.entry.declared }
    {
        let Doc { root: _, declared } = self;
        declared
    }
}
