//! The members that attributes give, and the qualifiers `xml:lang` and `rdf:type`.
ghost use Rattle.std.specs.Prelude.{◌≡◌, [], ◌∷◌, IfOk, map};
ghost use Rattle.xmp_tree.specs.Wf.{lang_name, type_name};
ghost use Rattle.rdf_forms.specs.Parts.{property_attributes};
ghost use Rattle.rdf_forms.specs.Values.{plain, attribute_member, lang_member, lang_qualifiers, type_of, is_node_member, node_members};

use crate::texts::joined;
use rdf_forms::{is_member_name, is_rdf, lang_value};
use std::alloc::Global;
use xml_grammar::{Attribute, Element};
use xmp_tree::{Member, Members, Shape, Value};
use xmp_values::{Memory, Name, Text};

/// A text without qualifiers.
pub fn plain<'p>(alloc: Global, text: Text<'p>) -> Value<'p>
    ensures { result ≡ plain text.entry }
{
    Value {
        shape: Shape::Simple(text),
        quals: Members::new(alloc),
    }
}

/// A list of one member.
fn one_member<'p>(alloc: Global, member: Member<'p>) -> Result<Members<'p>, Memory>
    ensures { IfOk result (λ ms. ms ≡ member.entry ∷ []) }
{
    let mut members = Members::new(alloc);
    members.push(member)?;
    Ok(members)
}

/// An attribute as a member.
pub fn attribute_member<'p>(alloc: Global, attribute: &Attribute<'p>) -> Result<Member<'p>, Memory>
    ensures { IfOk result (λ m. m ≡ attribute_member attribute.now) }
{
    let name = attribute.name.try_clone()?;
    let value = plain(alloc, attribute.value.try_clone()?);
    Ok(Member { name, value })
}

/// The name `xml:lang`.
#[tactic(auto, unfolding(xmp_tree::specs::Wf::lang_name, xmp_values::specs::Spaces::xml_space))]
fn lang_name<'p>() -> Name<'p>
    ensures { result ≡ lang_name }
{
    Name {
        space: Text::raw(b"http://www.w3.org/XML/1998/namespace".as_slice()),
        local: Text::raw(b"lang".as_slice()),
    }
}

/// The name `rdf:type`.
#[tactic(auto, unfolding(xmp_tree::specs::Wf::type_name, xmp_values::specs::Spaces::rdf_space))]
fn type_name<'p>() -> Name<'p>
    ensures { result ≡ type_name }
{
    Name {
        space: Text::raw(b"http://www.w3.org/1999/02/22-rdf-syntax-ns#".as_slice()),
        local: Text::raw(b"type".as_slice()),
    }
}

/// The qualifier that `xml:lang` gives, if the element has it.
#[tactic(auto, unfolding(rdf_forms::specs::Values::lang_qualifiers))]
pub fn lang_qualifiers<'p>(alloc: Global, element: &Element<'p>) -> Result<Members<'p>, Memory>
    ensures { IfOk result (λ ms. ms ≡ lang_qualifiers element.now) }
{
    match lang_value(element) {
        None => Ok(Members::new(alloc)),
        Some(tag) => {
            let value = plain(alloc, tag.try_clone()?);
            let name = lang_name();
            one_member(alloc, Member { name, value })
        }
    }
}

/// The qualifier `rdf:type` that the name of a typed node gives. RDF/XML Syntax, 2.13.
#[tactic(auto, unfolding(rdf_forms::specs::Values::type_of))]
pub fn type_of<'p>(alloc: Global, name: &Name<'p>) -> Result<Members<'p>, Memory>
    ensures { IfOk result (λ ms. ms ≡ type_of name.now) }
{
    if is_rdf(b"Description".as_slice(), name) {
        return Ok(Members::new(alloc));
    }
    let value = Value {
        shape: Shape::Uri(joined(alloc, &name.space, &name.local)?),
        quals: Members::new(alloc),
    };
    let name = type_name();
    one_member(alloc, Member { name, value })
}

/// The property attributes as members, in their order.
pub fn own_members<'p>(alloc: Global, element: &Element<'p>) -> Result<Members<'p>, Memory>
    ensures { IfOk result (λ ms. ms ≡ map attribute_member (property_attributes element.now)) }
{
    let mut members = Members::new(alloc);
    for attribute in element.attributes.as_slice() {
        if is_member_name(&attribute.name) {
            members.push(attribute_member(alloc, attribute)?)?;
        }
    }
    Ok(members)
}

/// Whether the attribute of a node is a member.
fn is_node_member(attribute: &Attribute<'_>) -> bool
    ensures { result ≡ is_node_member attribute.now }
{
    is_member_name(&attribute.name) || is_rdf(b"value".as_slice(), &attribute.name)
}

/// The members that the attributes of a node give: property attributes and `rdf:value`.
#[tactic(auto, unfolding(rdf_forms::specs::Values::node_members))]
pub fn node_members<'p>(alloc: Global, node: &Element<'p>) -> Result<Members<'p>, Memory>
    ensures { IfOk result (λ ms. ms ≡ node_members node.now) }
{
    let mut members = Members::new(alloc);
    for attribute in node.attributes.as_slice() {
        if is_node_member(attribute) {
            members.push(attribute_member(alloc, attribute)?)?;
        }
    }
    Ok(members)
}
