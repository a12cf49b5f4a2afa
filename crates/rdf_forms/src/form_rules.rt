//! The rules on the attributes and the form of an element with its role: RefusedAttribute to
//! BadItem. ISO 16684-1, 7.4 to 7.9.
ghost use Rattle.std.specs.Prelude.{◌≡◌};
ghost use Rattle.rdf_forms.specs.Forms.{form_of};
ghost use Rattle.rdf_forms.specs.FormRules.{is_property_or_item, has_two_abouts, refused_attribute, bad_parse_type, is_form_of_elements, has_elements_alone, mixed, many_nodes, bad_container, bad_item, form_rule};

use crate::admission::Admission;
use crate::formed::Formed;
use crate::forms::{Form, has_parse_type, is_resource};
use crate::parts::{element_count, has_bare_about, has_blank_text, has_rdf_attribute};
use crate::roles::Role;
use crate::visits::is_typed;
use crate::words::{in_rdf, is_rdf};
use xml_grammar::Element;
use xmp_values::Rule;

fn is_property_or_item(role: Role) -> bool
    ensures { result ≡ is_property_or_item role }
{
    matches!(role, Role::Property(_) | Role::Item)
}

/// Whether a top has `rdf:about` and `about`.
#[tactic(auto, unfolding(crate::specs::FormRules::has_two_abouts))]
fn has_two_abouts(role: Role, element: &Element<'_>) -> bool
    ensures { result ≡ has_two_abouts role element.now }
{
    match role {
        Role::Top => has_rdf_attribute(b"about".as_slice(), element) && has_bare_about(element),
        _ => false,
    }
}

#[tactic(auto, unfolding(crate::specs::FormRules::refused_attribute))]
fn refused_attribute(role: Role, formed: &Formed<'_, '_>) -> bool
    ensures { result ≡ refused_attribute role formed.now.element.now }
{
    Admission::of(formed).refuses_some(role) || has_two_abouts(role, formed.element)
}

#[tactic(auto, unfolding(crate::specs::FormRules::bad_parse_type))]
fn bad_parse_type(role: Role, element: &Element<'_>) -> bool
    ensures { result ≡ bad_parse_type role element.now }
{
    is_property_or_item(role) && has_parse_type(element) && !is_resource(element)
}

/// Whether the value stands in child elements.
fn is_form_of_elements(formed: &Formed<'_, '_>) -> bool
    ensures { result ≡ is_form_of_elements (form_of formed.now.element.now) }
{
    matches!(
        formed.form,
        Form::ByMembers | Form::ByContainer(_) | Form::ByNode(_)
    )
}

fn has_elements_alone(role: Role, formed: &Formed<'_, '_>) -> bool
    ensures { result ≡ has_elements_alone role formed.now.element.now }
{
    match role {
        Role::Property(_) | Role::Item => is_form_of_elements(formed),
        _ => true,
    }
}

#[tactic(auto, unfolding(crate::specs::FormRules::mixed))]
fn mixed(role: Role, formed: &Formed<'_, '_>) -> bool
    ensures { result ≡ mixed role formed.now.element.now }
{
    has_elements_alone(role, formed) && !has_blank_text(formed.element)
}

#[tactic(auto, unfolding(crate::specs::FormRules::many_nodes))]
fn many_nodes(role: Role, element: &Element<'_>) -> bool
    ensures { result ≡ many_nodes role element.now }
{
    is_property_or_item(role) && !has_parse_type(element) && element_count(element) >= 2
}

#[tactic(auto, unfolding(crate::specs::FormRules::bad_container))]
fn bad_container(role: Role, element: &Element<'_>) -> bool
    ensures { result ≡ bad_container role element.now }
{
    match role {
        Role::Node => in_rdf(&element.name) && is_typed(element),
        _ => false,
    }
}

#[tactic(auto, unfolding(crate::specs::FormRules::bad_item))]
fn bad_item(role: Role, element: &Element<'_>) -> bool
    ensures { result ≡ bad_item role element.now }
{
    match role {
        Role::Item => !is_rdf(b"li".as_slice(), &element.name),
        _ => false,
    }
}

/// The least of these rules that an element breaks in its role.
#[tactic(auto, unfolding(crate::specs::FormRules::form_rule))]
pub fn form_rule(role: Role, formed: &Formed<'_, '_>) -> Option<Rule>
    ensures { result ≡ form_rule role formed.now.element.now }
{
    let element = formed.element;
    if refused_attribute(role, formed) {
        Some(Rule::RefusedAttribute)
    } else if bad_parse_type(role, element) {
        Some(Rule::BadParseType)
    } else if mixed(role, formed) {
        Some(Rule::Mixed)
    } else if many_nodes(role, element) {
        Some(Rule::ManyNodes)
    } else if bad_container(role, element) {
        Some(Rule::BadContainer)
    } else if bad_item(role, element) {
        Some(Rule::BadItem)
    } else {
        None
    }
}
