//! The names that RDF/XML gives a meaning. ISO 16684-1, 7.3 and 7.4.
ghost use Rattle.std.specs.Prelude.{◌≡◌};
ghost use Rattle.rdf_forms.specs.Words.{is_rdf, is_meta, is_container, in_rdf, in_xml, in_none, is_lang, is_bare_about, is_member_name};

use xmp_values::{Name, is_rdf_namespace, is_xml_namespace};

/// Whether the name is in RDF's namespace.
#[tactic(auto, unfolding(crate::specs::Words::in_rdf))]
pub fn in_rdf(name: &Name<'_>) -> bool
    ensures { result ≡ in_rdf name.now }
{
    is_rdf_namespace(name.space.bytes())
}

/// Whether the name is in XML's namespace, that of `xml:lang`.
#[tactic(auto, unfolding(crate::specs::Words::in_xml))]
pub fn in_xml(name: &Name<'_>) -> bool
    ensures { result ≡ in_xml name.now }
{
    is_xml_namespace(name.space.bytes())
}

/// Whether the name has no namespace.
#[tactic(auto, unfolding(crate::specs::Words::in_none))]
pub fn in_none(name: &Name<'_>) -> bool
    ensures { result ≡ in_none name.now }
{
    name.space.bytes().is_empty()
}

/// Whether the name is that of RDF's namespace with this local part.
#[tactic(auto, unfolding(crate::specs::Words::is_rdf, crate::specs::Words::in_rdf))]
pub fn is_rdf(local: &[u8], name: &Name<'_>) -> bool
    ensures { result ≡ is_rdf local.now name.now }
{
    in_rdf(name) && name.local.bytes() == local
}

/// Whether the name is `x:xmpmeta`, or `x:xapmeta` of older files.
#[tactic(auto, unfolding(crate::specs::Words::is_meta, xmp_values::specs::Spaces::meta_space))]
pub fn is_meta(name: &Name<'_>) -> bool
    ensures { result ≡ is_meta name.now }
{
    name.space.bytes() == b"adobe:ns:meta/".as_slice()
        && (name.local.bytes() == b"xmpmeta".as_slice()
            || name.local.bytes() == b"xapmeta".as_slice())
}

/// Whether the name is `rdf:Bag`, `rdf:Seq` or `rdf:Alt`.
#[tactic(auto, unfolding(crate::specs::Words::is_container))]
pub fn is_container(name: &Name<'_>) -> bool
    ensures { result ≡ is_container name.now }
{
    is_rdf(b"Bag".as_slice(), name)
        || is_rdf(b"Seq".as_slice(), name)
        || is_rdf(b"Alt".as_slice(), name)
}

/// Whether the name is `xml:lang`.
#[tactic(auto, unfolding(crate::specs::Words::is_lang))]
pub fn is_lang(name: &Name<'_>) -> bool
    ensures { result ≡ is_lang name.now }
{
    in_xml(name) && name.local.bytes() == b"lang".as_slice()
}

/// Whether the name is `about` without namespace, of older files.
#[tactic(auto, unfolding(crate::specs::Words::is_bare_about))]
pub fn is_bare_about(name: &Name<'_>) -> bool
    ensures { result ≡ is_bare_about name.now }
{
    in_none(name) && name.local.bytes() == b"about".as_slice()
}

/// Whether the name is that of a property attribute, which has a namespace other than RDF's and
/// XML's.
#[tactic(auto, unfolding(crate::specs::Words::is_member_name))]
pub fn is_member_name(name: &Name<'_>) -> bool
    ensures { result ≡ is_member_name name.now }
{
    !in_none(name) && !in_rdf(name) && !in_xml(name)
}
