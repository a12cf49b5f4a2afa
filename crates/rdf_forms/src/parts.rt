//! The parts of an element: its attributes by their names, its child elements, its own text.
ghost use Rattle.std.specs.Prelude.{◌≡◌, length, slice_get, is_some, find};
ghost use Rattle.std.specs.List.{list_all};
ghost use Rattle.std.specs.Option.{option_copied};
ghost use Rattle.xmp_values.specs.Characters as characters;
ghost use Rattle.rdf_forms.specs.Words.{is_rdf, is_lang, is_bare_about, is_member_name};
ghost use Rattle.rdf_forms.specs.Parts.{name_of, element_at, passes, text_at, elements_of, elements_named, has_blank_text, attribute_value, has_attribute, has_element};
ghost use Rattle.rdf_forms.specs.Forms.{has_other_attribute};

use crate::words::{is_bare_about, is_lang, is_member_name, is_rdf};
use xml_grammar::{Child, Element};
use xmp_values::{Text, is_blank_byte};

/// The child as an element.
pub fn as_element<'e, 'p>(child: &'e Child<'p>) -> Option<&'e Element<'p>>
    ensures { option_copied result ≡ element_at child.now }
{
    match child {
        Child::Element(element) => Some(element),
        Child::Text(_) => None,
    }
}

/// The value of the attribute of RDF's namespace with this local part.
pub fn rdf_value<'e, 'p>(local: &[u8], element: &'e Element<'p>) -> Option<&'e Text<'p>>
    ensures { option_copied result ≡ attribute_value (is_rdf local.now) element.now }
{
    let attributes = element.attributes.as_slice();
    let attribute = attributes.iter().find(|a| is_rdf(local, &a.name))?;
    Some(&attribute.value)
}

/// The value of `xml:lang`.
pub fn lang_value<'e, 'p>(element: &'e Element<'p>) -> Option<&'e Text<'p>>
    ensures { option_copied result ≡ attribute_value is_lang element.now }
{
    let attributes = element.attributes.as_slice();
    let attribute = attributes.iter().find(|a| is_lang(&a.name))?;
    Some(&attribute.value)
}

/// The value of `about` without namespace.
pub fn bare_about_value<'e, 'p>(element: &'e Element<'p>) -> Option<&'e Text<'p>>
    ensures { option_copied result ≡ attribute_value is_bare_about element.now }
{
    let attributes = element.attributes.as_slice();
    let attribute = attributes.iter().find(|a| is_bare_about(&a.name))?;
    Some(&attribute.value)
}

/// Whether an attribute of RDF's namespace has this local part.
pub fn has_rdf_attribute(local: &[u8], element: &Element<'_>) -> bool
    ensures { result ≡ has_attribute (is_rdf local.now) element.now }
{
    let attributes = element.attributes.as_slice();
    attributes.iter().any(|a| is_rdf(local, &a.name))
}

/// Whether it has `xml:lang`.
pub fn has_lang(element: &Element<'_>) -> bool
    ensures { result ≡ has_attribute is_lang element.now }
{
    let attributes = element.attributes.as_slice();
    attributes.iter().any(|a| is_lang(&a.name))
}

/// Whether it has an attribute besides `xml:lang`.
pub fn has_other_attribute(element: &Element<'_>) -> bool
    ensures { result ≡ has_other_attribute element.now }
{
    let attributes = element.attributes.as_slice();
    attributes.iter().any(|a| !is_lang(&a.name))
}

/// Whether it has `about` without namespace.
pub fn has_bare_about(element: &Element<'_>) -> bool
    ensures { result ≡ has_attribute is_bare_about element.now }
{
    let attributes = element.attributes.as_slice();
    attributes.iter().any(|a| is_bare_about(&a.name))
}

/// Whether it has a property attribute.
pub fn has_own_attribute(element: &Element<'_>) -> bool
    ensures { result ≡ has_attribute is_member_name element.now }
{
    let attributes = element.attributes.as_slice();
    attributes.iter().any(|a| is_member_name(&a.name))
}

fn is_blank_text(text: &[u8]) -> bool
    ensures { result ≡ list_all characters.is_blank text.now }
{
    text.iter().all(|b| is_blank_byte(*b))
}

#[tactic(auto, using(crate::proofs::ChildLaws::children))]
/// Whether the text of a child, if it is one, is white space alone.
fn is_blank_child(child: &Child<'_>) -> bool
    ensures { result ≡ list_all characters.is_blank (text_at child.now) }
{
    match child {
        Child::Element(_) => true,
        Child::Text(text) => is_blank_text(text.bytes()),
    }
}

/// Whether the element's own text is white space alone, or nothing.
pub fn has_blank_text(element: &Element<'_>) -> bool
    ensures { result ≡ has_blank_text element.now }
{
    let children = element.children.as_slice();
    children.iter().all(|c| is_blank_child(c))
}

fn is_element(child: &Child<'_>) -> bool
    ensures { result ≡ is_some (element_at child.now) }
{
    as_element(child).is_some()
}

/// Whether the child is an element of this name of RDF's namespace.
fn is_rdf_child(local: &[u8], child: &Child<'_>) -> bool
    ensures { result ≡ passes (λ e. is_rdf local.now (name_of e)) (element_at child.now) }
{
    match as_element(child) {
        Some(element) => is_rdf(local, &element.name),
        None => false,
    }
}

/// The number of child elements.
pub fn element_count(element: &Element<'_>) -> usize
    ensures { result ≡ length (elements_of element.now) }
{
    let children = element.children.as_slice();
    children.iter().filter(|c| is_element(c)).count()
}

fn first_child<'e, 'p>(children: &'e [Child<'p>]) -> Option<&'e Child<'p>>
    ensures { option_copied result ≡ find (λ c. is_some (element_at c)) children.now }
{
    children.iter().find(|c| is_element(c))
}

/// The first child element.
pub fn first_element<'e, 'p>(element: &'e Element<'p>) -> Option<&'e Element<'p>>
    ensures { option_copied result ≡ slice_get (elements_of element.now) 0 }
{
    match first_child(element.children.as_slice()) {
        Some(child) => as_element(child),
        None => None,
    }
}

/// Whether a child element has the name of RDF's namespace with this local part.
pub fn has_rdf_element(local: &[u8], element: &Element<'_>) -> bool
    ensures { result ≡ has_element (is_rdf local.now) element.now }
{
    let children = element.children.as_slice();
    children.iter().any(|c| is_rdf_child(local, c))
}

/// How many child elements have the name of RDF's namespace with this local part.
pub fn rdf_element_count(local: &[u8], element: &Element<'_>) -> usize
    ensures { result ≡ length (elements_named (is_rdf local.now) element.now) }
{
    let children = element.children.as_slice();
    children.iter().filter(|c| is_rdf_child(local, c)).count()
}
