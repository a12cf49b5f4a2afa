//! Which names a tree may have.
ghost use Rattle.std.specs.Prelude.{◌≡◌, ◌≢◌, ◌↔◌, AllPairs, IsTrue, IfOk};
ghost use Rattle.xmp_tree.specs.Wf.{NamesDiffer, IsNamed, IsOwnSpace, lang_name, type_name, note_name};

use crate::nested::Member;
use std::alloc::Global;
use xmp_values::{
    Memory, Name, is_char_text, is_name, is_rdf_namespace, is_xml_namespace, is_xmlns_namespace,
    names_differ,
};

/// Whether the namespace is one that properties and fields may have.
pub fn is_own_space(space: &[u8]) -> bool
    ensures { IsTrue result ↔ IsOwnSpace space.now }
{
    if space.is_empty() || is_rdf_namespace(space) {
        return false;
    }
    if is_xml_namespace(space) {
        return false;
    }
    !is_xmlns_namespace(space)
}

/// Whether the namespace is made of Chars and the local part is a name without colon.
pub fn is_named(name: &Name<'_>) -> bool
    ensures { IsTrue result ↔ IsNamed name.now }
{
    is_name(name.local.bytes()) && is_char_text(name.space.bytes())
}

/// Whether the name is `xml:lang`.
#[tactic(auto, unfolding(crate::specs::Wf::lang_name))]
pub fn is_lang(name: &Name<'_>) -> bool
    ensures { IsTrue result ↔ (name.now ≡ lang_name) }
{
    name.local.bytes() == b"lang".as_slice() && is_xml_namespace(name.space.bytes())
}

/// Whether the name is `rdf:type`.
#[tactic(auto, unfolding(crate::specs::Wf::type_name))]
pub fn is_type(name: &Name<'_>) -> bool
    ensures { IsTrue result ↔ (name.now ≡ type_name) }
{
    name.local.bytes() == b"type".as_slice() && is_rdf_namespace(name.space.bytes())
}

/// Whether the name is `xmpNote:HasExtendedXMP`.
#[tactic(auto, unfolding(crate::specs::Wf::note_name))]
pub fn is_note(name: &Name<'_>) -> bool
    ensures { IsTrue result ↔ (name.now ≡ note_name) }
{
    name.local.bytes() == b"HasExtendedXMP".as_slice()
        && name.space.bytes() == b"http://ns.adobe.com/xmp/note/".as_slice()
}

/// Whether no two of the members have the same name.
pub fn are_apart(alloc: Global, members: &[Member<'_>]) -> Result<bool, Memory>
    ensures { IfOk result (λ apart. IsTrue apart ↔ NamesDiffer members.now) }
{
    names_differ(alloc, members)
}
