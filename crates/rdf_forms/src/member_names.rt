//! Names of members, entered in a set, which tells whether one of them stands again.
ghost use Rattle.std.specs.Prelude.{◌≡◌, [], ◌∷◌, ◌++◌, ◌&&◌, not, map, IfOk, OnOk, codes};
ghost use Rattle.rdf_forms.specs.Words.{is_rdf};
ghost use Rattle.rdf_forms.specs.Parts.{name_of, elements_of, property_attributes};
ghost use Rattle.rdf_forms.specs.MemberRules.{attribute_names, member_names};
ghost use Rattle.rdf_forms.specs.Entering.{Holds, clashes, element_names, property_attribute_names, entered, Enters};

use crate::parts::as_element;
use crate::words::{is_member_name, is_rdf};
use xml_grammar::{Attribute, Child, Element};
use xmp_values::{Memory, Name, NameSet};

fn is_left_out(without_value: bool, name: &Name<'_>) -> bool
    ensures { result ≡ (without_value && is_rdf (codes "value") name.now) }
{
    without_value && is_rdf(b"value".as_slice(), name)
}

/// Enters a name, unless it is `rdf:value` and that is left out; tells whether none stood there.
fn enter_name<'e>(
    seen: &mut NameSet<'e>,
    name: &'e Name<'_>,
    without_value: bool,
) -> Result<bool, Memory>
    ensures apart { IfOk result (λ apart. apart ≡ not (clashes (entered without_value (name.now ∷ [])) seen.old)) }
    ensures holds { OnOk result (Holds seen.new (seen.old ++ entered without_value (name.now ∷ []))) }
{
    if is_left_out(without_value, name) {
        return Ok(true);
    }
    let is_new = seen.insert(name.space.bytes(), name.local.bytes())?;
    Ok(is_new)
}

/// Enters the name of a child, if it is an element.
fn enter_child<'e>(
    seen: &mut NameSet<'e>,
    child: &'e Child<'_>,
    without_value: bool,
) -> Result<bool, Memory>
    ensures apart { IfOk result (λ apart. apart ≡ not (clashes (entered without_value (element_names (child.now ∷ []))) seen.old)) }
    ensures holds { OnOk result (Holds seen.new (seen.old ++ entered without_value (element_names (child.now ∷ [])))) }
{
    match as_element(child) {
        Some(element) => enter_name(seen, &element.name, without_value),
        None => Ok(true),
    }
}

/// Enters the name of an attribute, if it is a property attribute.
fn enter_attribute<'e>(
    seen: &mut NameSet<'e>,
    attribute: &'e Attribute<'_>,
    without_value: bool,
) -> Result<bool, Memory>
    ensures apart { IfOk result (λ apart. apart ≡ not (clashes (entered without_value (property_attribute_names (attribute.now ∷ []))) seen.old)) }
    ensures holds { OnOk result (Holds seen.new (seen.old ++ entered without_value (property_attribute_names (attribute.now ∷ [])))) }
{
    if is_member_name(&attribute.name) {
        enter_name(seen, &attribute.name, without_value)
    } else {
        Ok(true)
    }
}

/// Enters the names of the child elements; false where one of them stood there.
pub fn enter_elements<'e>(
    seen: &mut NameSet<'e>,
    element: &'e Element<'_>,
    without_value: bool,
) -> Result<bool, Memory>
    ensures { IfOk result (Enters seen.old (entered without_value (map name_of (elements_of element.now))) seen.new) }
{
    for child in element.children.as_slice() {
        if !enter_child(seen, child, without_value)? {
            return Ok(false);
        }
    }
    Ok(true)
}

/// Enters the names of the property attributes; false where one of them stood there.
fn enter_attributes<'e>(
    seen: &mut NameSet<'e>,
    element: &'e Element<'_>,
    without_value: bool,
) -> Result<bool, Memory>
    ensures { IfOk result (Enters seen.old (entered without_value (attribute_names (property_attributes element.now))) seen.new) }
{
    for attribute in element.attributes.as_slice() {
        if !enter_attribute(seen, attribute, without_value)? {
            return Ok(false);
        }
    }
    Ok(true)
}

/// Enters the names of the members of a top or a node; false where one of them stood there.
pub fn enter_members<'e>(
    seen: &mut NameSet<'e>,
    element: &'e Element<'_>,
    without_value: bool,
) -> Result<bool, Memory>
    ensures { IfOk result (Enters seen.old (entered without_value (member_names element.now)) seen.new) }
{
    if !enter_attributes(seen, element, without_value)? {
        return Ok(false);
    }
    enter_elements(seen, element, without_value)
}
