//! The least rule that elements break, each in its role.

use rdf_forms::{Formed, Holder, Role, broken, broken_top};
use std::alloc::Global;
use std::test::Fail;
use xml_grammar::{Attributes, Child, Children, Element};
use xmp_values::{Name, NameSet, Rule, Text};

const RDF: &str = "http://www.w3.org/1999/02/22-rdf-syntax-ns#";

const OWN: &str = "http://purl.org/dc/elements/1.1/";

fn element(alloc: Global, space: &'static str, local: &'static str) -> Element<'static> {
    Element {
        at: 0,
        name: Name {
            space: Text::raw(space.as_bytes()),
            local: Text::raw(local.as_bytes()),
        },
        attributes: Attributes::new(alloc),
        children: Children::new(alloc),
    }
}

/// `rdf:Description` with the two elements in it.
fn description(
    alloc: Global,
    first: Element<'static>,
    second: Element<'static>,
) -> Option<Element<'static>> {
    let mut outer = element(alloc, RDF, "Description");
    outer.children.push(Child::Element(first)).ok()?;
    outer.children.push(Child::Element(second)).ok()?;
    Some(outer)
}

fn rule_of(alloc: Global, role: Role, depth: u64, element: &Element<'_>) -> Option<Rule> {
    broken(alloc, role, depth, &Formed::of(element)).ok()?
}

fn has_no_rule(alloc: Global, depth: u64) -> bool {
    let property = element(alloc, OWN, "format");
    matches!(
        broken(
            alloc,
            Role::Property(Holder::Top),
            depth,
            &Formed::of(&property)
        ),
        Ok(None)
    )
}

fn rule_at(alloc: Global, depth: u64) -> Option<Rule> {
    rule_of(
        alloc,
        Role::Property(Holder::Top),
        depth,
        &element(alloc, OWN, "format"),
    )
}

/// The rule that a node breaks by two elements of this name.
fn rule_of_two(alloc: Global, space: &'static str, local: &'static str) -> Option<Rule> {
    let first = element(alloc, space, local);
    let node = description(alloc, first, element(alloc, space, local))?;
    rule_of(alloc, Role::Node, 1, &node)
}

/// The rule that a second top breaks, after one that breaks none.
fn rule_after<'e>(alloc: Global, first: &'e Element<'_>, second: &'e Element<'_>) -> Option<Rule> {
    let mut seen = NameSet::new(alloc);
    let Ok(None) = broken_top(first, b"".as_slice(), &mut seen) else {
        return None;
    };
    broken_top(second, b"".as_slice(), &mut seen).ok()?
}

fn rule_of_tops(alloc: Global) -> Option<Rule> {
    let first = description(
        alloc,
        element(alloc, OWN, "format"),
        element(alloc, OWN, "title"),
    )?;
    let second = description(
        alloc,
        element(alloc, OWN, "source"),
        element(alloc, OWN, "format"),
    )?;
    rule_after(alloc, &first, &second)
}

#[test]
fn a_property_of_the_deepest_level_breaks_no_rule(rt: HostRuntime) -> Result<(), Fail> {
    assert!(rt; has_no_rule(rt.alloc(), 24));
    assert!(rt; rule_at(rt.alloc(), 25) == Some(Rule::TreeDeep));
    Ok(())
}

#[test]
fn a_node_has_one_member_of_a_name(rt: HostRuntime) -> Result<(), Fail> {
    assert!(rt; rule_of_two(rt.alloc(), OWN, "format") == Some(Rule::Twice));
    assert!(rt; rule_of_two(rt.alloc(), RDF, "value") == Some(Rule::TwiceValue));
    Ok(())
}

#[test]
fn two_tops_have_no_property_in_common(rt: HostRuntime) -> Result<(), Fail> {
    assert!(rt; rule_of_tops(rt.alloc()) == Some(Rule::Twice));
    Ok(())
}
