//! The tops of a document: their properties with their places, and the first rule that is broken.
ghost use Rattle.std.specs.Prelude.{◌≡◌, ◌<◌, ◌++◌, ◌∷◌, ◌^◌, [], List, OnOk, map, codes};
ghost use Rattle.xml_grammar.specs.declared.elements.Element.{Element as ElementView};
ghost use Rattle.xml_grammar.specs.declared.elements.Attribute.{Attribute as AttributeView};
ghost use Rattle.xmp_values.specs.Stops.{place_of as told_of, Gives};
ghost use Rattle.rdf_forms.specs.Words.{is_rdf};
ghost use Rattle.rdf_forms.specs.Parts.{name_of, place_of, elements_in, property_attributes};
ghost use Rattle.rdf_forms.specs.Values.{attribute_member};
ghost use Rattle.rdf_forms.specs.FormViews.{about_in};
ghost use Rattle.rdf_forms.specs.Meaning.{Placed};
ghost use Rattle.xmp_rdf.specs.Reading.{read_placed, read_rdf, read_root};
ghost use Rattle.xmp_rdf.specs.Parting.{parts_of};
ghost use Rattle.xmp_rdf.specs.Gathering.{IsAfter, Enters, Parts, Gathers};

use crate::RdfStop;
use crate::abouts::{about_again, first_about};
use crate::members::attribute_member;
use crate::parting::Parted;
use crate::walk::{check, member_depth, property};
use rdf_forms::{
    Formed, Holder, Role, about_bytes, broken_top, first_element, is_member_name, is_rdf,
};
use std::alloc::Global;
use xml_grammar::{Child, Element};
use xmp_tree::Member;
use xmp_values::{Memory, NameSet, Text};

/// What the tops so far give.
#[derive(Drop)]
pub struct Gathered<'e, 'p> {
    /// The first about that isn't empty.
    pub first: Option<&'e Text<'p>>,
    /// The names of the properties.
    pub names: NameSet<'e>,
    pub parts: Parted<'p>,
}

/// What the tops of a document give.
#[derive(Drop)]
pub struct Contents<'p> {
    pub about: Text<'p>,
    pub parts: Parted<'p>,
}

// ---- one top

/// Enters the names of a top's properties, where the top breaks no rule after those before it.
fn add_names<'e>(first: &[u8], names: &mut NameSet<'e>, top: &'e Element<'_>) -> Result<(), RdfStop>
    ensures { (earlier : List ElementView) → IsAfter earlier first.now names.old → Enters earlier top.now result names.new }
{
    match broken_top(top, first, names)? {
        None => Ok(()),
        Some(rule) => Err(RdfStop::Fault(rule, top.at())),
    }
}

/// Adds the property attributes of a top.
fn add_attributes<'p>(
    alloc: Global,
    parts: &mut Parted<'p>,
    top: &Element<'p>,
) -> Result<(), Memory>
    ensures { (before : List Placed) → parts.old ≡ parts_of before → OnOk result (parts.new ≡ parts_of (before ++ map (λ (a : AttributeView). (place_of top.now, attribute_member a)) (property_attributes top.now))) }
{
    for attribute in top.attributes.as_slice() {
        if is_member_name(&attribute.name) {
            parts.push(top.at(), attribute_member(alloc, attribute)?)?;
        }
    }
    Ok(())
}

/// Adds a child of a top, if it is an element.
fn add_child<'p>(
    alloc: Global,
    levels: u64,
    parts: &mut Parted<'p>,
    child: &Child<'p>,
) -> Result<(), RdfStop>
    requires { levels < 2 ^ 63 }
    ensures { (before : List Placed) → parts.old ≡ parts_of before → Parts result parts.new (read_placed levels before (elements_in (child.now ∷ []))) }
{
    let Child::Element(element) = child else {
        return Ok(());
    };
    let role = Role::Property(Holder::Top);
    let value = property(alloc, levels, role, member_depth(0, element), element)?;
    let name = element.name.try_clone()?;
    parts.push(element.at(), Member { name, value })?;
    Ok(())
}

/// Adds the children of a top.
fn add_children<'p>(
    alloc: Global,
    levels: u64,
    parts: &mut Parted<'p>,
    children: &[Child<'p>],
) -> Result<(), RdfStop>
    requires { levels < 2 ^ 63 }
    ensures { (before : List Placed) → parts.old ≡ parts_of before → Parts result parts.new (read_placed levels before (elements_in children.now)) }
{
    for child in children {
        add_child(alloc, levels, parts, child)?;
    }
    Ok(())
}

/// Adds the about, the names and the properties of a top.
fn add_top<'e, 'p>(
    alloc: Global,
    levels: u64,
    gathered: &mut Gathered<'e, 'p>,
    top: &'e Element<'p>,
) -> Result<(), RdfStop>
    requires { levels < 2 ^ 63 }
    ensures { (before : List Placed) (earlier : List ElementView) → gathered.old.parts ≡ parts_of before → IsAfter earlier (about_in gathered.old.first) gathered.old.names → Gathers levels before earlier (top.now ∷ []) result gathered.new }
{
    add_names(about_bytes(gathered.first), &mut gathered.names, top)?;
    add_attributes(alloc, &mut gathered.parts, top)?;
    add_children(alloc, levels, &mut gathered.parts, top.children.as_slice())?;
    gathered.first = first_about(gathered.first, top);
    Ok(())
}

// ---- the tops

/// Adds a child of `rdf:RDF`, if it is an element.
fn add_top_at<'e, 'p>(
    alloc: Global,
    levels: u64,
    gathered: &mut Gathered<'e, 'p>,
    child: &'e Child<'p>,
) -> Result<(), RdfStop>
    requires { levels < 2 ^ 63 }
    ensures { (before : List Placed) (earlier : List ElementView) → gathered.old.parts ≡ parts_of before → IsAfter earlier (about_in gathered.old.first) gathered.old.names → Gathers levels before earlier (elements_in (child.now ∷ [])) result gathered.new }
{
    match child {
        Child::Element(top) => add_top(alloc, levels, gathered, top),
        Child::Text(_) => Ok(()),
    }
}

/// Adds the tops among the children of `rdf:RDF`, before which nothing was gathered.
fn add_tops<'e, 'p>(
    alloc: Global,
    levels: u64,
    gathered: &mut Gathered<'e, 'p>,
    children: &'e [Child<'p>],
) -> Result<(), RdfStop>
    requires { levels < 2 ^ 63 }
    ensures { gathered.old.parts ≡ parts_of [] → IsAfter [] (about_in gathered.old.first) gathered.old.names → Gathers levels [] [] (elements_in children.now) result gathered.new }
{
    for child in children {
        add_top_at(alloc, levels, gathered, child)?;
    }
    Ok(())
}

/// What `rdf:RDF` holds.
fn rdf_contents<'p>(alloc: Global, levels: u64, rdf: &Element<'p>) -> Result<Contents<'p>, RdfStop>
    requires { levels < 2 ^ 63 }
    ensures { Gives told_of result (read_rdf levels rdf.now) }
{
    check(alloc, Role::Rdf, 0, &Formed::of(rdf))?;
    let mut gathered = Gathered {
        first: None,
        names: NameSet::new(alloc),
        parts: Parted::new(alloc),
    };
    add_tops(alloc, levels, &mut gathered, rdf.children.as_slice())?;
    let about = about_again(gathered.first)?;
    Ok(Contents {
        about,
        parts: gathered.parts,
    })
}

/// Whether the element is `rdf:RDF`.
fn is_rdf_root(element: &Element<'_>) -> bool
    ensures { result ≡ is_rdf (codes "RDF") (name_of element.now) }
{
    is_rdf(b"RDF".as_slice(), &element.name)
}

/// What a document holds, with fewer levels of elements inside each top than `levels`.
pub fn root_contents<'p>(
    alloc: Global,
    levels: u64,
    root: &Element<'p>,
) -> Result<Contents<'p>, RdfStop>
    requires { levels < 2 ^ 63 }
    ensures { Gives told_of result (read_root levels root.now) }
{
    if is_rdf_root(root) {
        return rdf_contents(alloc, levels, root);
    }
    check(alloc, Role::Root, 0, &Formed::of(root))?;
    match first_element(root) {
        Some(rdf) => rdf_contents(alloc, levels, rdf),
        None => Ok(Contents {
            about: Text::raw(b"".as_slice()),
            parts: Parted::new(alloc),
        }),
    }
}
