//! The walk through properties and items: their values, or the first rule that one breaks.
ghost use Rattle.std.specs.Prelude.{◌≡◌, ◌<◌, ◌≤◌, ◌+◌, ◌^◌, ◌∷◌, [], IfOk};
ghost use Rattle.xml_grammar.specs.declared.elements.Element.{out-Element};
ghost use Rattle.rdf_forms.specs.Parts.{elements_in, own_text};
ghost use Rattle.rdf_forms.specs.Forms.{ByMembers, ByContainer, ByNode, form_of};
ghost use Rattle.rdf_forms.specs.Visits.{member_depth};
ghost use Rattle.rdf_forms.specs.Values.{plain, lang_qualifiers};
ghost use Rattle.xmp_tree.specs.Parts.{value};
ghost use Rattle.xmp_tree.specs.declared.nested.Shape.{Simple};
ghost use Rattle.xmp_values.specs.Stops.{place_of, Gives, Makes};
ghost use Rattle.xmp_rdf.specs.Reading.{checked, read_within, read_form, read_members, read_items};

use crate::RdfStop;
use crate::members::{lang_qualifiers, node_members, plain, type_of};
use crate::texts::own_text;
use crate::values::{by_attributes, by_members, kind_of};
use rdf_forms::{Form, Formed, Holder, Role, broken, is_rdf, members_holder, node_holder};
use std::alloc::Global;
use xml_grammar::{Child, Element};
use xmp_tree::{Items, Member, Members, Shape, Value};
use xmp_values::{Memory, Text};

/// Ok where an element breaks no rule in its role.
#[tactic(auto, unfolding(crate::specs::Reading::checked, rdf_forms::specs::Rules::broken))]
pub fn check(alloc: Global, role: Role, depth: u64, formed: &Formed<'_, '_>) -> Result<(), RdfStop>
    ensures { Gives place_of result (checked role depth formed.now.element.now) }
{
    match broken(alloc, role, depth, formed)? {
        Some(rule) => Err(RdfStop::Fault(rule, formed.element.at())),
        None => Ok(()),
    }
}

/// The depth of a member of what is at a depth.
#[tactic(auto, unfolding(rdf_forms::specs::Visits::member_depth))]
pub fn member_depth(depth: u64, element: &Element<'_>) -> u64
    requires { depth + 1 < 2 ^ 64 }
    ensures depth { result ≡ member_depth depth element.now }
    ensures within { result ≤ depth + 1 }
{
    if is_rdf(b"value".as_slice(), &element.name) {
        depth
    } else {
        depth + 1
    }
}

/// The empty text, without qualifiers.
fn no_value<'p>(alloc: Global) -> Value<'p>
    ensures { result ≡ plain [] }
{
    plain(alloc, Text::raw(b"".as_slice()))
}

/// The value by an element's own text.
fn text_value<'p>(alloc: Global, element: &Element<'p>) -> Result<Value<'p>, Memory>
    ensures { IfOk result (λ v. v ≡ value (Simple (own_text element.now)) (lang_qualifiers element.now)) }
{
    Ok(Value {
        shape: Shape::Simple(own_text(alloc, element)?),
        quals: lang_qualifiers(alloc, element)?,
    })
}

/// The value of a property or item with fewer levels of elements inside it than `levels`.
#[cycle(walk)]
pub fn property<'p>(
    alloc: Global,
    levels: u64,
    role: Role,
    depth: u64,
    element: &Element<'p>,
) -> Result<Value<'p>, RdfStop>
    requires { depth + levels < 2 ^ 64 }
    ensures { Gives place_of result (read_within levels role depth element.now) }
{
    if levels == 0 {
        return Ok(no_value(alloc));
    }
    let formed = Formed::of(element);
    check(alloc, role, depth, &formed)?;
    form_value(alloc, levels - 1, depth, &formed)
}

/// The value of a property or item, by its form.
#[cycle(walk)]
#[tactic(auto, unfolding(crate::specs::Reading::read_form))]
fn form_value<'p>(
    alloc: Global,
    levels: u64,
    depth: u64,
    formed: &Formed<'_, 'p>,
) -> Result<Value<'p>, RdfStop>
    requires { depth + 1 + levels < 2 ^ 64 }
    ensures { let e = formed.now.element.now in Gives place_of result (read_form levels depth e (form_of e)) }
{
    let element = formed.element;
    match formed.form {
        Form::ByMembers => resource_value(alloc, levels, depth, element),
        Form::ByContainer(container) => container_value(alloc, levels, depth, element, container),
        Form::ByNode(node) => node_value(alloc, levels, depth, element, node),
        Form::ByAttributes => Ok(by_attributes(alloc, element)?),
        Form::ByText => Ok(text_value(alloc, element)?),
        Form::NoForm => Ok(no_value(alloc)),
    }
}

/// The value of one with `rdf:parseType="Resource"`, by the members that its child elements are.
#[cycle(walk)]
fn resource_value<'p>(
    alloc: Global,
    levels: u64,
    depth: u64,
    element: &Element<'p>,
) -> Result<Value<'p>, RdfStop>
    requires { depth + 1 + levels < 2 ^ 64 }
    ensures { Gives place_of result (read_form levels depth element.now ByMembers) }
{
    let holder = members_holder(element);
    let mut members = Members::new(alloc);
    let children = element.children.as_slice();
    add_members(alloc, levels, holder, depth, &mut members, children)?;
    let lang = lang_qualifiers(alloc, element)?;
    Ok(by_members(lang, Members::new(alloc), members)?)
}

/// The value by a node: by the members that its attributes and child elements are.
#[cycle(walk)]
fn node_value<'p>(
    alloc: Global,
    levels: u64,
    depth: u64,
    element: &Element<'p>,
    node: &Element<'p>,
) -> Result<Value<'p>, RdfStop>
    requires { depth + 1 + levels < 2 ^ 64 }
    ensures { Gives place_of result (read_form levels depth element.now (ByNode node.now)) }
{
    check(alloc, Role::Node, depth, &Formed::of(node))?;
    let holder = node_holder(node);
    let mut members = node_members(alloc, node)?;
    let children = node.children.as_slice();
    add_members(alloc, levels, holder, depth, &mut members, children)?;
    let lang = lang_qualifiers(alloc, element)?;
    let types = type_of(alloc, &node.name)?;
    Ok(by_members(lang, types, members)?)
}

/// The array of the items inside a container.
#[cycle(walk)]
fn container_value<'p>(
    alloc: Global,
    levels: u64,
    depth: u64,
    element: &Element<'p>,
    container: &Element<'p>,
) -> Result<Value<'p>, RdfStop>
    requires { depth + 1 + levels < 2 ^ 64 }
    ensures { Gives place_of result (read_form levels depth element.now (ByContainer container.now)) }
{
    check(alloc, Role::Container, depth, &Formed::of(container))?;
    let mut items = Items::new(alloc);
    add_items(
        alloc,
        levels,
        depth,
        &mut items,
        container.children.as_slice(),
    )?;
    Ok(Value {
        shape: Shape::Array(kind_of(&container.name), items),
        quals: lang_qualifiers(alloc, element)?,
    })
}

/// Adds the members inside an element.
#[cycle(walk)]
fn add_members<'p>(
    alloc: Global,
    levels: u64,
    holder: Holder,
    depth: u64,
    members: &mut Members<'p>,
    children: &[Child<'p>],
) -> Result<(), RdfStop>
    requires { depth + 1 + levels < 2 ^ 64 }
    ensures { Makes place_of result members.new (read_members levels holder depth members.old (elements_in children.now)) }
{
    for child in children {
        add_member(alloc, levels, holder, depth, members, child)?;
    }
    Ok(())
}

/// Adds a child as a member, if it is an element.
#[cycle(walk)]
fn add_member<'p>(
    alloc: Global,
    levels: u64,
    holder: Holder,
    depth: u64,
    members: &mut Members<'p>,
    child: &Child<'p>,
) -> Result<(), RdfStop>
    requires { depth + 1 + levels < 2 ^ 64 }
    ensures { Makes place_of result members.new (read_members levels holder depth members.old (elements_in (child.now ∷ []))) }
{
    let Child::Element(element) = child else {
        return Ok(());
    };
    let role = Role::Property(holder);
    let value = property(alloc, levels, role, member_depth(depth, element), element)?;
    let name = element.name.try_clone()?;
    members.push(Member { name, value })?;
    Ok(())
}

/// Adds the items inside a container.
#[cycle(walk)]
fn add_items<'p>(
    alloc: Global,
    levels: u64,
    depth: u64,
    items: &mut Items<'p>,
    children: &[Child<'p>],
) -> Result<(), RdfStop>
    requires { depth + 1 + levels < 2 ^ 64 }
    ensures { Makes place_of result items.new (read_items levels depth items.old (elements_in children.now)) }
{
    for child in children {
        add_item(alloc, levels, depth, items, child)?;
    }
    Ok(())
}

/// Adds a child as an item, if it is an element.
#[cycle(walk)]
fn add_item<'p>(
    alloc: Global,
    levels: u64,
    depth: u64,
    items: &mut Items<'p>,
    child: &Child<'p>,
) -> Result<(), RdfStop>
    requires { depth + 1 + levels < 2 ^ 64 }
    ensures { Makes place_of result items.new (read_items levels depth items.old (elements_in (child.now ∷ []))) }
{
    let Child::Element(element) = child else {
        return Ok(());
    };
    let value = property(alloc, levels, Role::Item, depth + 1, element)?;
    items.push(value)?;
    Ok(())
}
