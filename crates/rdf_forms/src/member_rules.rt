//! The rules on the members of an element with its role, and on its depth: TwiceValue, Twice and
//! TreeDeep. ISO 16684-1, 7.4 to 7.9.
ghost use Rattle.std.specs.Prelude.{◌≡◌, ◌&&◌, ◌||◌, nat_le, [], IfOk, map, codes};
ghost use Rattle.rdf_forms.specs.Words.{is_rdf, is_lang};
ghost use Rattle.rdf_forms.specs.Parts.{name_of, element_at, passes, elements_of, has_attribute, has_element};
ghost use Rattle.rdf_forms.specs.Forms.{form_of};
ghost use Rattle.rdf_forms.specs.Visits.{is_typed};
ghost use Rattle.rdf_forms.specs.FormRules.{is_value_element};
ghost use Rattle.rdf_forms.specs.MemberRules.{has_inner_value, value_count, has_role_value_twice, has_attribute_value_twice, twice_value, has_again, member_names, other_names, has_lang_value, repeats_member, twice, too_deep, tree_deep, member_rule};
ghost use Rattle.rdf_forms.specs.Entering.{clashes, Enters};

use crate::admission::{has_qualified_uri, has_two_values, has_value_again};
use crate::formed::Formed;
use crate::forms::Form;
use crate::member_names::{enter_elements, enter_members};
use crate::parts::{
    as_element, has_lang, has_own_attribute, has_rdf_attribute, has_rdf_element, rdf_element_count,
};
use crate::roles::Role;
use crate::visits::{has_value_member, is_typed};
use crate::words::is_rdf;
use std::alloc::Global;
use xml_grammar::{Child, Element};
use xmp_values::{Memory, NameSet, Rule};

/// The deepest that a tree goes.
const MOST_DEPTH: u64 = 24;

fn is_value_element(element: &Element<'_>) -> bool
    ensures { result ≡ is_value_element element.now }
{
    is_rdf(b"value".as_slice(), &element.name)
}

/// TwiceValue by the members of a property or item.
fn has_inner_value(formed: &Formed<'_, '_>) -> bool
    ensures { let e = formed.now.element.now in result ≡ has_inner_value (form_of e) e }
{
    let element = formed.element;
    match formed.form {
        Form::ByMembers => {
            rdf_element_count(b"value".as_slice(), element) >= 2
                || (is_value_element(element) && has_rdf_element(b"value".as_slice(), element))
        }
        Form::ByNode(node) => {
            is_value_element(element) && (has_value_member(node) || is_typed(node))
        }
        _ => false,
    }
}

/// Whether a node has two members `rdf:value`.
fn has_two_value_members(node: &Element<'_>) -> bool
    ensures { result ≡ nat_le 2 (value_count node.now) }
{
    let count = rdf_element_count(b"value".as_slice(), node);
    count >= 2 || (count == 1 && has_rdf_attribute(b"value".as_slice(), node))
}

fn has_role_value_twice(role: Role, formed: &Formed<'_, '_>) -> bool
    ensures { result ≡ has_role_value_twice role formed.now.element.now }
{
    match role {
        Role::Property(_) | Role::Item => has_inner_value(formed),
        Role::Node => has_two_value_members(formed.element),
        _ => false,
    }
}

fn has_attribute_value_twice(role: Role, element: &Element<'_>) -> bool
    ensures { result ≡ has_attribute_value_twice role element.now }
{
    match role {
        Role::Root => false,
        _ => has_two_values(element) || has_value_again(element) || has_qualified_uri(element),
    }
}

/// Whether an element breaks TwiceValue in its role.
#[tactic(auto, unfolding(crate::specs::MemberRules::twice_value))]
pub fn twice_value(role: Role, formed: &Formed<'_, '_>) -> bool
    ensures { result ≡ twice_value role formed.now.element.now }
{
    has_attribute_value_twice(role, formed.element) || has_role_value_twice(role, formed)
}

/// Whether the child is an element `rdf:value` with `xml:lang`.
fn is_lang_value(child: &Child<'_>) -> bool
    ensures { result ≡ passes (λ e. is_value_element e && has_attribute is_lang e) (element_at child.now) }
{
    match as_element(child) {
        Some(element) => is_value_element(element) && has_lang(element),
        None => false,
    }
}

/// Whether a member `rdf:value`, as an element, has `xml:lang`.
fn has_lang_value(element: &Element<'_>) -> bool
    ensures { result ≡ has_lang_value element.now }
{
    let children = element.children.as_slice();
    children.iter().any(|c| is_lang_value(c))
}

/// Whether two child elements, `rdf:value` aside, have the same name.
#[tactic(auto, using(crate::proofs::EnteredLists::told_again))]
fn repeats_element(alloc: Global, element: &Element<'_>) -> Result<bool, Memory>
    ensures { IfOk result (λ again. again ≡ has_again (other_names (map name_of (elements_of element.now)))) }
{
    let mut seen = NameSet::new(alloc);
    let are_apart = enter_elements(&mut seen, element, true)?;
    Ok(!are_apart)
}

/// Whether two members of a node, `rdf:value` aside, have the same name.
#[tactic(auto, using(crate::proofs::EnteredLists::told_again))]
fn repeats_node_member(alloc: Global, node: &Element<'_>) -> Result<bool, Memory>
    ensures { IfOk result (λ again. again ≡ has_again (other_names (member_names node.now))) }
{
    let mut seen = NameSet::new(alloc);
    let are_apart = enter_members(&mut seen, node, true)?;
    Ok(!are_apart)
}

/// Whether a property or item has two members or qualifiers of the same name.
fn repeats_member(alloc: Global, formed: &Formed<'_, '_>) -> Result<bool, Memory>
    ensures { let e = formed.now.element.now in IfOk result (λ again. again ≡ repeats_member (form_of e) e) }
{
    let element = formed.element;
    match formed.form {
        Form::ByMembers if has_lang(element) && has_lang_value(element) => Ok(true),
        Form::ByMembers => repeats_element(alloc, element),
        Form::ByNode(node) => Ok(has_lang(element) && has_lang_value(node)),
        _ => Ok(false),
    }
}

/// Whether a node has two members of the same name, or two types.
fn repeats_in_node(alloc: Global, node: &Element<'_>) -> Result<bool, Memory>
    ensures { IfOk result (λ again. again ≡ (has_again (other_names (member_names node.now)) || (is_typed node.now && has_element (is_rdf (codes "type")) node.now))) }
{
    if is_typed(node) && has_rdf_element(b"type".as_slice(), node) {
        return Ok(true);
    }
    repeats_node_member(alloc, node)
}

/// Enters the names of a top's members; false where the top breaks Twice after those entered.
pub fn enter_top<'e>(top: &'e Element<'_>, seen: &mut NameSet<'e>) -> Result<bool, Memory>
    ensures { IfOk result (Enters seen.old (member_names top.now) seen.new) }
{
    enter_members(seen, top, false)
}

fn repeats_in_top(alloc: Global, top: &Element<'_>) -> Result<bool, Memory>
    ensures { IfOk result (λ again. again ≡ clashes (member_names top.now) []) }
{
    let mut seen = NameSet::new(alloc);
    let are_apart = enter_top(top, &mut seen)?;
    Ok(!are_apart)
}

/// Whether an element breaks Twice in its role, a top after no others.
#[tactic(auto, unfolding(crate::specs::MemberRules::twice))]
pub fn twice(alloc: Global, role: Role, formed: &Formed<'_, '_>) -> Result<bool, Memory>
    ensures { IfOk result (λ again. again ≡ twice role formed.now.element.now []) }
{
    match role {
        Role::Top => repeats_in_top(alloc, formed.element),
        Role::Property(_) | Role::Item => repeats_member(alloc, formed),
        Role::Node => repeats_in_node(alloc, formed.element),
        _ => Ok(false),
    }
}

fn too_deep(depth: u64, element: &Element<'_>) -> bool
    ensures { result ≡ too_deep depth element.now }
{
    depth > MOST_DEPTH || (depth == MOST_DEPTH && (has_lang(element) || has_own_attribute(element)))
}

/// Whether an element breaks TreeDeep in its role.
#[tactic(auto, unfolding(crate::specs::MemberRules::tree_deep))]
pub fn tree_deep(role: Role, depth: u64, element: &Element<'_>) -> bool
    ensures { result ≡ tree_deep role depth element.now }
{
    match role {
        Role::Property(_) | Role::Item => too_deep(depth, element),
        Role::Node => depth == MOST_DEPTH && (has_own_attribute(element) || is_typed(element)),
        _ => false,
    }
}

/// The least of these rules that an element breaks in its role, a top after no others.
#[tactic(auto, unfolding(crate::specs::MemberRules::member_rule))]
pub fn member_rule(
    alloc: Global,
    role: Role,
    depth: u64,
    formed: &Formed<'_, '_>,
) -> Result<Option<Rule>, Memory>
    ensures { IfOk result (λ rule. rule ≡ member_rule role depth formed.now.element.now []) }
{
    if twice_value(role, formed) {
        return Ok(Some(Rule::TwiceValue));
    }
    if twice(alloc, role, formed)? {
        return Ok(Some(Rule::Twice));
    }
    if tree_deep(role, depth, formed.element) {
        return Ok(Some(Rule::TreeDeep));
    }
    Ok(None)
}
