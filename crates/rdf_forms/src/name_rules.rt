//! The rules on the name of an element with its role, on its attributes' namespaces, and on the
//! about: NoRdf to RdfName. ISO 16684-1, 7.3 and 7.4.
ghost use Rattle.std.specs.Prelude.{◌≡◌};
ghost use Rattle.rdf_forms.specs.Parts.{elements_of};
ghost use Rattle.rdf_forms.specs.FormViews.{about_in};
ghost use Rattle.rdf_forms.specs.NameRules.{is_property_or_node, has_some_attribute, is_one_rdf, no_rdf, not_description, about_of, differs, about_differs, is_bare, is_bare_element, no_namespace, is_xml, xml_name, is_type_attributes, is_type_element, is_allowed_member, rdf_name, name_rule};

use crate::parts::{bare_about_value, element_count, first_element, has_blank_text, rdf_value};
use crate::roles::{Holder, Role};
use crate::words::{in_none, in_rdf, in_xml, is_bare_about, is_lang, is_meta, is_rdf};
use xml_grammar::{Attribute, Element};
use xmp_values::{Rule, Text};

/// The about of a top, where `rdf:about` counts before `about`.
#[tactic(auto, unfolding(crate::specs::NameRules::about_of))]
pub fn about_text<'e, 'p>(top: &'e Element<'p>) -> Option<&'e Text<'p>>
    ensures { about_in result ≡ about_of top.now }
{
    match rdf_value(b"about".as_slice(), top) {
        Some(about) => Some(about),
        None => bare_about_value(top),
    }
}

/// The bytes of an about, which is empty where there is none.
pub fn about_bytes<'e>(about: Option<&'e Text<'_>>) -> &'e [u8]
    ensures { result.now ≡ about_in about.entry }
{
    match about {
        Some(text) => text.bytes(),
        None => b"".as_slice(),
    }
}

fn is_property_or_node(role: Role) -> bool
    ensures { result ≡ is_property_or_node role }
{
    matches!(role, Role::Property(_) | Role::Node)
}

/// Whether `rdf:RDF` is the one child element.
fn is_one_rdf(element: &Element<'_>) -> bool
    ensures { result ≡ is_one_rdf (elements_of element.now) }
{
    match first_element(element) {
        Some(child) => element_count(element) == 1 && is_rdf(b"RDF".as_slice(), &child.name),
        None => false,
    }
}

#[tactic(auto, unfolding(crate::specs::NameRules::no_rdf))]
fn no_rdf(role: Role, element: &Element<'_>) -> bool
    ensures { result ≡ no_rdf role element.now }
{
    match role {
        Role::Root => !is_meta(&element.name) || !is_one_rdf(element),
        _ => false,
    }
}

#[tactic(auto, unfolding(crate::specs::NameRules::not_description))]
fn not_description(role: Role, element: &Element<'_>) -> bool
    ensures { result ≡ not_description role element.now }
{
    match role {
        Role::Top => !is_rdf(b"Description".as_slice(), &element.name),
        _ => false,
    }
}

fn differs(about: &[u8], first: &[u8]) -> bool
    ensures { result ≡ differs about.now first.now }
{
    !about.is_empty() && !first.is_empty() && about != first
}

#[tactic(auto, unfolding(crate::specs::NameRules::about_differs))]
fn about_differs(role: Role, element: &Element<'_>, first: &[u8]) -> bool
    ensures { result ≡ about_differs role element.now first.now }
{
    match role {
        Role::Top => differs(about_bytes(about_text(element)), first),
        _ => false,
    }
}

/// Whether the attribute has no namespace where it must have one.
#[tactic(auto, unfolding(crate::specs::NameRules::is_bare))]
pub fn is_bare(role: Role, attribute: &Attribute<'_>) -> bool
    ensures { result ≡ is_bare role attribute.now }
{
    match role {
        Role::Root | Role::Rdf => false,
        Role::Top => in_none(&attribute.name) && !is_bare_about(&attribute.name),
        _ => in_none(&attribute.name),
    }
}

#[tactic(auto, unfolding(crate::specs::NameRules::is_bare_element))]
fn is_bare_element(role: Role, element: &Element<'_>) -> bool
    ensures { result ≡ is_bare_element role element.now }
{
    match role {
        Role::Property(_) | Role::Item | Role::Node => in_none(&element.name),
        _ => false,
    }
}

fn has_bare_attribute(role: Role, element: &Element<'_>) -> bool
    ensures { result ≡ has_some_attribute (is_bare role) element.now }
{
    element
        .attributes
        .as_slice()
        .iter()
        .any(|a| is_bare(role, a))
}

#[tactic(auto, unfolding(crate::specs::NameRules::no_namespace))]
fn no_namespace(role: Role, element: &Element<'_>) -> bool
    ensures { result ≡ no_namespace role element.now }
{
    is_bare_element(role, element) || has_bare_attribute(role, element)
}

/// Whether the attribute is in XML's namespace on a property or node, and not `xml:lang`.
#[tactic(auto, unfolding(crate::specs::NameRules::is_xml))]
pub fn is_xml(role: Role, attribute: &Attribute<'_>) -> bool
    ensures { result ≡ is_xml role attribute.now }
{
    is_property_or_node(role) && in_xml(&attribute.name) && !is_lang(&attribute.name)
}

fn has_xml_attribute(role: Role, element: &Element<'_>) -> bool
    ensures { result ≡ has_some_attribute (is_xml role) element.now }
{
    element
        .attributes
        .as_slice()
        .iter()
        .any(|a| is_xml(role, a))
}

#[tactic(auto, unfolding(crate::specs::NameRules::xml_name))]
fn xml_name(role: Role, element: &Element<'_>) -> bool
    ensures { result ≡ xml_name role element.now }
{
    (is_property_or_node(role) && in_xml(&element.name)) || has_xml_attribute(role, element)
}

/// Whether `rdf:resource` is the one attribute.
fn is_type_attributes(attributes: &[Attribute<'_>]) -> bool
    ensures { result ≡ is_type_attributes attributes.now }
{
    match attributes {
        [attribute] => is_rdf(b"resource".as_slice(), &attribute.name),
        _ => false,
    }
}

#[tactic(auto, unfolding(crate::specs::NameRules::is_type_element))]
fn is_type_element(element: &Element<'_>) -> bool
    ensures { result ≡ is_type_element element.now }
{
    is_type_attributes(element.attributes.as_slice())
        && element_count(element) == 0
        && has_blank_text(element)
}

#[tactic(auto, unfolding(crate::specs::NameRules::is_allowed_member))]
fn is_allowed_member(holder: Holder, element: &Element<'_>) -> bool
    ensures { result ≡ is_allowed_member holder element.now }
{
    match holder {
        Holder::Top => false,
        Holder::Value { with_value } => {
            is_rdf(b"value".as_slice(), &element.name)
                || (is_rdf(b"type".as_slice(), &element.name)
                    && with_value
                    && is_type_element(element))
        }
    }
}

#[tactic(auto, unfolding(crate::specs::NameRules::rdf_name))]
fn rdf_name(role: Role, element: &Element<'_>) -> bool
    ensures { result ≡ rdf_name role element.now }
{
    match role {
        Role::Property(holder) => in_rdf(&element.name) && !is_allowed_member(holder, element),
        _ => false,
    }
}

/// The least of these rules that an element breaks in its role, after tops with this first
/// about.
#[tactic(auto, unfolding(crate::specs::NameRules::name_rule))]
pub fn name_rule(role: Role, element: &Element<'_>, first: &[u8]) -> Option<Rule>
    ensures { result ≡ name_rule role element.now first.now }
{
    if no_rdf(role, element) {
        Some(Rule::NoRdf)
    } else if not_description(role, element) {
        Some(Rule::NotDescription)
    } else if about_differs(role, element, first) {
        Some(Rule::AboutDiffers)
    } else if no_namespace(role, element) {
        Some(Rule::NoNamespace)
    } else if xml_name(role, element) {
        Some(Rule::XmlName)
    } else if rdf_name(role, element) {
        Some(Rule::RdfName)
    } else {
        None
    }
}
