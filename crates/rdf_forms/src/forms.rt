//! The form of a property or item: how its value is written. ISO 16684-1, 7.4 to 7.9.
ghost use Rattle.std.specs.Prelude.{◌≡◌, is_some};
ghost use Rattle.std.specs.Option.{option_copied};
ghost use Rattle.rdf_forms.specs.Parts.{elements_of};
ghost use Rattle.rdf_forms.specs.Forms.{parse_type, is_resource, childless_form, child_form, form_by, form_of};
ghost use Rattle.rdf_forms.specs.FormViews.{form_in};

use crate::parts::{element_count, first_element, has_blank_text, has_other_attribute, rdf_value};
use crate::words::is_container;
use xml_grammar::Element;

/// How the value of a property or item is written.
#[derive(Clone, Copy)]
pub enum Form<'e, 'p> {
    /// `rdf:parseType="Resource"`: by its child elements, which are its members.
    ByMembers,
    /// One child element, a container: by the container's items.
    ByContainer(&'e Element<'p>),
    /// Any other one child element: by that node's members.
    ByNode(&'e Element<'p>),
    /// No child element, blank text, an attribute besides `xml:lang`: by its attributes.
    ByAttributes,
    /// No child element otherwise: by its own text.
    ByText,
    /// Child elements under another `rdf:parseType`, or two or more of them.
    NoForm,
}

/// Whether it has `rdf:parseType`.
pub fn has_parse_type(element: &Element<'_>) -> bool
    ensures { result ≡ is_some (parse_type element.now) }
{
    rdf_value(b"parseType".as_slice(), element).is_some()
}

/// Whether its `rdf:parseType` is `Resource`.
pub fn is_resource(element: &Element<'_>) -> bool
    ensures { result ≡ is_resource (parse_type element.now) }
{
    match rdf_value(b"parseType".as_slice(), element) {
        Some(kind) => kind.bytes() == b"Resource".as_slice(),
        None => false,
    }
}

fn childless_form<'e, 'p>(element: &'e Element<'p>) -> Form<'e, 'p>
    ensures { form_in result ≡ childless_form element.now }
{
    if has_blank_text(element) && has_other_attribute(element) {
        Form::ByAttributes
    } else {
        Form::ByText
    }
}

fn child_form<'e, 'p>(child: &'e Element<'p>) -> Form<'e, 'p>
    ensures { form_in result ≡ child_form child.now }
{
    if is_container(&child.name) {
        Form::ByContainer(child)
    } else {
        Form::ByNode(child)
    }
}

#[tactic(auto, using(crate::proofs::FormLaws::forms))]
/// The form by the child elements; `typed` says whether there is `rdf:parseType`.
fn form_by<'e, 'p>(element: &'e Element<'p>, typed: bool) -> Form<'e, 'p>
    ensures { form_in result ≡ form_by element.now typed (elements_of element.now) }
{
    match first_element(element) {
        None => childless_form(element),
        Some(_) if typed => Form::NoForm,
        Some(_) if element_count(element) >= 2 => Form::NoForm,
        Some(child) => child_form(child),
    }
}

/// The form of a property or item.
#[tactic(auto, unfolding(crate::specs::Forms::form_of))]
pub fn form_of<'e, 'p>(element: &'e Element<'p>) -> Form<'e, 'p>
    ensures { form_in result ≡ form_of element.now }
{
    if is_resource(element) {
        Form::ByMembers
    } else {
        form_by(element, has_parse_type(element))
    }
}
