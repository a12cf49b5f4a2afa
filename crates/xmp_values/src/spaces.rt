//! The namespaces that have a meaning of their own.
ghost use Rattle.std.specs.Prelude.{◌≡◌, ◌↔◌, IsTrue};
ghost use Rattle.xmp_values.specs.Spaces.{rdf_space, xml_space, xmlns_space};

/// Whether the namespace is that of RDF's syntax.
#[tactic(auto, unfolding(crate::specs::Spaces::rdf_space))]
pub fn is_rdf_namespace(space: &[u8]) -> bool
    ensures { IsTrue result ↔ (space.now ≡ rdf_space) }
{
    space == b"http://www.w3.org/1999/02/22-rdf-syntax-ns#".as_slice()
}

/// Whether the namespace is that of `xml:lang`.
#[tactic(auto, unfolding(crate::specs::Spaces::xml_space))]
pub fn is_xml_namespace(space: &[u8]) -> bool
    ensures { IsTrue result ↔ (space.now ≡ xml_space) }
{
    space == b"http://www.w3.org/XML/1998/namespace".as_slice()
}

/// Whether the namespace is that of `xmlns`, to which nothing may be bound.
#[tactic(auto, unfolding(crate::specs::Spaces::xmlns_space))]
pub fn is_xmlns_namespace(space: &[u8]) -> bool
    ensures { IsTrue result ↔ (space.now ≡ xmlns_space) }
{
    space == b"http://www.w3.org/2000/xmlns/".as_slice()
}
