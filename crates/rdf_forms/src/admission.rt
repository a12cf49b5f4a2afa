//! Which attributes an element may have in its role: RefusedAttribute.
ghost use Rattle.std.specs.Prelude.{◌≡◌};
ghost use Rattle.rdf_forms.specs.Forms.{form_of};
ghost use Rattle.rdf_forms.specs.FormViews.{is_by_attributes};
ghost use Rattle.rdf_forms.specs.NameRules.{has_some_attribute};
ghost use Rattle.rdf_forms.specs.FormRules.{has_two_values, has_value_again, has_qualified_uri, is_twice_value_attribute, is_property_attribute, is_role_attribute, is_refused};

use crate::formed::Formed;
use crate::forms::Form;
use crate::name_rules::{is_bare, is_xml};
use crate::parts::{has_own_attribute, has_rdf_attribute};
use crate::roles::Role;
use crate::words::{is_bare_about, is_lang, is_member_name, is_rdf};
use xml_grammar::{Attribute, Element};

/// Whether the element has `rdf:value` and `rdf:resource` as attributes.
#[tactic(auto, unfolding(crate::specs::FormRules::has_two_values))]
pub fn has_two_values(element: &Element<'_>) -> bool
    ensures { result ≡ has_two_values element.now }
{
    has_rdf_attribute(b"value".as_slice(), element)
        && has_rdf_attribute(b"resource".as_slice(), element)
}

/// Whether an element `rdf:value` has the attribute `rdf:value`.
#[tactic(auto, unfolding(crate::specs::FormRules::has_value_again))]
pub fn has_value_again(element: &Element<'_>) -> bool
    ensures { result ≡ has_value_again element.now }
{
    is_rdf(b"value".as_slice(), &element.name) && has_rdf_attribute(b"value".as_slice(), element)
}

/// Whether an element `rdf:value` has `rdf:resource` and a property attribute.
#[tactic(auto, unfolding(crate::specs::FormRules::has_qualified_uri))]
pub fn has_qualified_uri(element: &Element<'_>) -> bool
    ensures { result ≡ has_qualified_uri element.now }
{
    is_rdf(b"value".as_slice(), &element.name)
        && has_rdf_attribute(b"resource".as_slice(), element)
        && has_own_attribute(element)
}

fn is_by_attributes(formed: &Formed<'_, '_>) -> bool
    ensures { result ≡ is_by_attributes (form_of formed.now.element.now) }
{
    matches!(formed.form, Form::ByAttributes)
}

/// An element with what decides which of its attributes are refused. It is found once, so that
/// all attributes are judged in the time of a few walks over them.
#[derive(Clone, Copy)]
pub struct Admission<'e, 'p> {
    element: &'e Element<'p>,
    by_attributes: bool,
    two_values: bool,
    value_again: bool,
    qualified_uri: bool,
    ghost by_attributes_is: { by_attributes ≡ is_by_attributes (form_of element.now) },
    ghost two_values_is: { two_values ≡ has_two_values element.now },
    ghost value_again_is: { value_again ≡ has_value_again element.now },
    ghost qualified_uri_is: { qualified_uri ≡ has_qualified_uri element.now },
}

impl<'e, 'p> Admission<'e, 'p> {
    pub fn of(formed: &Formed<'e, 'p>) -> Admission<'e, 'p>
        ensures { result.element.now ≡ formed.now.element.now }
    {
        let element = formed.element;
        Admission {
            element,
            by_attributes: is_by_attributes(formed),
            two_values: has_two_values(element),
            value_again: has_value_again(element),
            qualified_uri: has_qualified_uri(element),
        }
    }

    /// Whether TwiceValue holds because of the attribute.
    #[tactic(auto, unfolding(crate::specs::FormRules::is_twice_value_attribute))]
    fn is_twice_value(&self, attribute: &Attribute<'_>) -> bool
        ensures { result ≡ is_twice_value_attribute self.now.element.now attribute.now }
    {
        let name = &attribute.name;
        let is_value = is_rdf(b"value".as_slice(), name);
        let is_resource = is_rdf(b"resource".as_slice(), name);
        (self.two_values && (is_value || is_resource))
            || (self.value_again && is_value)
            || (self.qualified_uri && (is_resource || is_member_name(name)))
    }

    /// Whether the attribute may stand on a property or item of its form.
    #[tactic(auto, using(crate::proofs::FormLaws::is_form_attribute_by), unfolding(crate::specs::FormRules::is_property_attribute))]
    fn admits_on_property(&self, attribute: &Attribute<'_>) -> bool
        ensures { result ≡ is_property_attribute self.now.element.now attribute.now }
    {
        let name = &attribute.name;
        is_lang(name)
            || is_rdf(b"parseType".as_slice(), name)
            || (self.by_attributes
                && (is_rdf(b"value".as_slice(), name)
                    || is_rdf(b"resource".as_slice(), name)
                    || is_member_name(name)))
    }

    #[tactic(auto, unfolding(crate::specs::FormRules::is_role_attribute))]
    fn admits(&self, role: Role, attribute: &Attribute<'_>) -> bool
        ensures { result ≡ is_role_attribute role self.now.element.now attribute.now }
    {
        let name = &attribute.name;
        match role {
            Role::Root => true,
            Role::Rdf | Role::Container => false,
            Role::Top => {
                is_rdf(b"about".as_slice(), name) || is_bare_about(name) || is_member_name(name)
            }
            Role::Property(_) | Role::Item => self.admits_on_property(attribute),
            Role::Node => is_rdf(b"value".as_slice(), name) || is_member_name(name),
        }
    }

    /// Whether the attribute may not stand there, and no other rule names it.
    #[tactic(auto, unfolding(crate::specs::FormRules::is_refused))]
    fn refuses(&self, role: Role, attribute: &Attribute<'_>) -> bool
        ensures { result ≡ is_refused role self.now.element.now attribute.now }
    {
        !self.admits(role, attribute)
            && !is_bare(role, attribute)
            && !is_xml(role, attribute)
            && !self.is_twice_value(attribute)
    }

    /// Whether it refuses an attribute of the element.
    pub fn refuses_some(&self, role: Role) -> bool
        ensures { let e = self.now.element.now in result ≡ has_some_attribute (is_refused role e) e }
    {
        self.element
            .attributes
            .as_slice()
            .iter()
            .any(|a| self.refuses(role, a))
    }
}
