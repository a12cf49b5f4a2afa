//! A tag with its declarations apart and its names expanded.

ghost use Rattle.std.specs.Prelude.{◌≡◌, ◌++◌, ◌||◌, true, Some, map, IfOk, OnOk};
ghost use Rattle.std.specs.List.{list_any};
ghost use Rattle.xml_grammar.specs.Scopes.{binding_of, bindings_of, bound_to, or_nothing, attribute_space, expanded, is_unbound};
ghost use Rattle.xml_grammar.specs.Nesting.{has_twice};
ghost use Rattle.xmp_xml.specs.Bounds.{binding_in};
ghost use Rattle.xmp_xml.specs.Tagging.{declares, with_attribute, divided, lacks_one, same_attribute, frame_in, tagged_with};

use crate::builder::Frame;
use crate::declarations::{Bound, Declared};
use crate::scopes::Scope;
use std::alloc::Global;
use xml_grammar::{Attribute, Attributes, Children, QName, RawAttribute, Tag};
use xmp_values::{Hint, Memory, Name, Sequence, Text};

/// The attributes of a tag, with the declarations apart.
#[derive(Drop)]
pub struct Parts<'p> {
    pub declared: Declared<'p>,
    pub plain: Sequence<RawAttribute<'p>>,
}

/// A tag with its names expanded, and what is wrong with it.
#[derive(Drop)]
pub struct Tagged<'p> {
    pub frame: Frame<'p>,
    pub hints: Sequence<Hint>,
    /// A declaration isn't allowed.
    pub misbound: bool,
    /// A prefix isn't bound.
    pub unbound: bool,
    /// Two attributes have the same name.
    pub twice: bool,
    pub empty: bool,
}

/// Whether an attribute of this name declares a namespace.
fn declares(name: &QName<'_>) -> bool
    ensures { result ≡ declares name.now.prefix name.now.local }
{
    match &name.prefix {
        None => name.local.bytes() == b"xmlns".as_slice(),
        Some(prefix) => prefix.bytes() == b"xmlns".as_slice(),
    }
}

/// What a declaration binds.
fn bound_of<'p>(declaration: RawAttribute<'p>) -> Bound<'p>
    requires { declares declaration.name.prefix declaration.name.local ≡ true }
    ensures { binding_of declaration.entry ≡ Some (binding_in result) }
{
    let RawAttribute { name, value } = declaration;
    let QName { prefix, local } = name;
    match prefix {
        None => Bound {
            prefix: None,
            space: value,
        },
        Some(_) => Bound {
            prefix: Some(local),
            space: value,
        },
    }
}

/// One attribute more.
fn add_attribute<'p>(parts: &mut Parts<'p>, attribute: RawAttribute<'p>) -> Result<(), Memory>
    ensures { OnOk result (parts.new ≡ with_attribute parts.old attribute.entry) }
{
    if declares(&attribute.name) {
        return parts.declared.push(bound_of(attribute));
    }
    parts.plain.push(attribute)
}

fn divided<'p>(alloc: Global, attributes: Sequence<RawAttribute<'p>>) -> Result<Parts<'p>, Memory>
    ensures { IfOk result (λ x. x ≡ divided attributes.entry) }
{
    let mut parts = Parts {
        declared: Declared::new(alloc),
        plain: Sequence::new(alloc),
    };
    for attribute in attributes.into_vec() {
        add_attribute(&mut parts, attribute)?;
    }
    Ok(parts)
}

/// Whether a prefix isn't bound.
fn lacks(scope: &Scope<'_>, prefix: &Option<Text<'_>>) -> bool
    ensures { result ≡ is_unbound scope.now prefix.now }
{
    match prefix {
        None => false,
        Some(_) => scope.bound_to(prefix).is_none(),
    }
}

/// The namespace of a prefix.
fn space_of<'p>(scope: &Scope<'p>, prefix: &Option<Text<'_>>) -> Result<Text<'p>, Memory>
    ensures { IfOk result (λ t. t ≡ or_nothing (bound_to scope.now prefix.now)) }
{
    let Some(space) = scope.bound_to(prefix) else {
        return Ok(Text::raw(b"".as_slice()));
    };
    space.try_clone()
}

fn attribute_space<'p>(scope: &Scope<'p>, prefix: &Option<Text<'_>>) -> Result<Text<'p>, Memory>
    ensures { IfOk result (λ t. t ≡ attribute_space scope.now prefix.now) }
{
    match prefix {
        None => Ok(Text::raw(b"".as_slice())),
        Some(_) => space_of(scope, prefix),
    }
}

fn expanded_one<'p>(scope: &Scope<'p>, attribute: RawAttribute<'p>) -> Result<Attribute<'p>, Memory>
    ensures { IfOk result (λ a. a ≡ expanded scope.now attribute.entry) }
{
    let RawAttribute { name, value } = attribute;
    let QName { prefix, local } = name;
    let space = attribute_space(scope, &prefix)?;
    Ok(Attribute {
        name: Name { space, local },
        value,
    })
}

/// The attributes with their names expanded.
fn expanded_all<'p>(
    alloc: Global,
    scope: &Scope<'p>,
    plain: Sequence<RawAttribute<'p>>,
) -> Result<Attributes<'p>, Memory>
    ensures { IfOk result (λ all. all ≡ map (expanded scope.now) plain.entry) }
{
    let mut attributes = Attributes::new(alloc);
    for attribute in plain.into_vec() {
        attributes.push(expanded_one(scope, attribute)?)?;
    }
    Ok(attributes)
}

/// Whether the prefix of an attribute isn't bound.
fn any_lacks(scope: &Scope<'_>, plain: &[RawAttribute<'_>]) -> bool
    ensures { result ≡ list_any (lacks_one scope.now) plain.now }
{
    for attribute in plain {
        if lacks(scope, &attribute.name.prefix) {
            return true;
        }
    }
    false
}

/// Whether a prefix of the tag's name or of an attribute isn't bound.
fn is_unbound(scope: &Scope<'_>, name: &QName<'_>, plain: &[RawAttribute<'_>]) -> bool
    ensures { result ≡ (is_unbound scope.now name.now.prefix || list_any (lacks_one scope.now) plain.now) }
{
    lacks(scope, &name.prefix) || any_lacks(scope, plain)
}

/// Whether a prefix is declared twice, or two attributes have the same name.
fn is_twice(
    alloc: Global,
    scope: &Scope<'_>,
    again: bool,
    plain: &[RawAttribute<'_>],
) -> Result<bool, Memory>
    ensures { IfOk result (λ twice. twice ≡ (again || has_twice same_attribute (map (expanded scope.now) plain.now))) }
{
    if again {
        return Ok(true);
    }
    Ok(!scope.are_apart(alloc, plain)?)
}

/// The frame of an element, with its names expanded.
fn frame_in<'p>(
    alloc: Global,
    scope: &Scope<'p>,
    at: u64,
    name: QName<'p>,
    plain: Sequence<RawAttribute<'p>>,
    declared: usize,
) -> Result<Frame<'p>, Memory>
    ensures { IfOk result (λ f. f ≡ frame_in scope.now at name.entry plain.entry declared) }
{
    Ok(Frame {
        at,
        name: Name {
            space: space_of(scope, &name.prefix)?,
            local: name.local.try_clone()?,
        },
        spelled: name,
        attributes: expanded_all(alloc, scope, plain)?,
        declared,
        children: Children::new(alloc),
    })
}

/// A tag with its names expanded, and what is wrong with it. Its declarations come into force.
pub fn read_tag<'p>(
    alloc: Global,
    scope: &mut Scope<'p>,
    at: u64,
    tag: Tag<'p>,
) -> Result<Tagged<'p>, Memory>
    ensures tag { IfOk result (λ t. t ≡ tagged_with (bindings_of tag.entry.attributes ++ scope.old) at tag.entry) }
    ensures scope { OnOk result (scope.new ≡ bindings_of tag.entry.attributes ++ scope.old) }
{
    let Tag {
        name,
        attributes,
        empty,
    } = tag;
    let Parts { declared, plain } = divided(alloc, attributes)?;
    let hints = declared.hints(alloc)?;
    let misbound = declared.has_misbound();
    let count = declared.len();
    let again = scope.enter(alloc, declared)?;
    let unbound = is_unbound(scope, &name, plain.as_slice());
    let twice = is_twice(alloc, scope, again, plain.as_slice())?;
    let frame = frame_in(alloc, scope, at, name, plain, count)?;
    Ok(Tagged {
        frame,
        hints,
        misbound,
        unbound,
        twice,
        empty,
    })
}
