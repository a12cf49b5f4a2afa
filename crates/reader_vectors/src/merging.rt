//! Two meanings merged, and the property that both have.

use std::alloc::Global;
use std::test::Fail;
use xmp_rdf::{Meaning, MergeStop, Places, merge, own};
use xmp_tree::{Member, Members, Shape, Tree, Value};
use xmp_values::{Hints, Name, Text};
use xmp_xml::read;

/// What a packet and its extended text declare.
const PACKET: &str = "<a xmlns:m='urn:a' xmlns:n='urn:b'/>";

const EXTENDED: &str = "<a xmlns:x='urn:c' xmlns:y='urn:a'/>";

fn property(alloc: Global, local: &'static str) -> Member<'static> {
    Member {
        name: Name {
            space: Text::raw(b"http://purl.org/dc/elements/1.1/"),
            local: Text::raw(local.as_bytes()),
        },
        value: Value {
            shape: Shape::Simple(Text::raw(b"x")),
            quals: Members::new(alloc),
        },
    }
}

fn hints_in(alloc: Global, text: &'static str) -> Option<Hints> {
    let doc = read(alloc, text.as_bytes()).ok()?;
    doc.declared().try_clone(alloc).ok()
}

/// A meaning of properties, of which the first has this place, and each other the next.
fn meaning(
    alloc: Global,
    locals: &'static str,
    first: u64,
    text: &'static str,
) -> Option<Meaning<'static>> {
    let mut props = Members::new(alloc);
    let mut places = Places::new(alloc);
    let mut at = first;
    for local in locals.split_whitespace() {
        props.push(property(alloc, local)).ok()?;
        places.push(at).ok()?;
        at = at.wrapping_add(1);
    }
    let tree = Tree::checked(alloc, Text::raw(b""), props).ok()??;
    let hints = hints_in(alloc, text)?;
    // A meaning has as many places as properties.
    if places.len() != tree.props.len() {
        return None;
    }
    Some(Meaning {
        tree,
        hints,
        note: None,
        places,
    })
}

fn both(
    alloc: Global,
    locals: &'static str,
    more: &'static str,
) -> Option<Result<Meaning<'static>, MergeStop>> {
    let main = meaning(alloc, locals, 10, PACKET)?;
    let more = meaning(alloc, more, 20, EXTENDED)?;
    Some(merge(alloc, main, more))
}

fn merged(alloc: Global, locals: &'static str, more: &'static str) -> Option<Meaning<'static>> {
    both(alloc, locals, more)?.ok()
}

fn place_of_twice(alloc: Global, locals: &'static str, more: &'static str) -> Option<u64> {
    match both(alloc, locals, more)? {
        Err(MergeStop::Twice(at)) => Some(at),
        _ => None,
    }
}

fn has_names(meaning: &Meaning<'_>, locals: &str) -> bool {
    let mut words = locals.split_whitespace();
    for property in meaning.tree.props.as_slice() {
        let word = words.next().unwrap_or("");
        if property.name.local.bytes() != word.as_bytes() {
            return false;
        }
    }
    words.next().is_none()
}

fn has_prefixes(meaning: &Meaning<'_>, prefixes: &str) -> bool {
    let mut words = prefixes.split_whitespace();
    for hint in meaning.hints.as_slice() {
        let prefix = words.next().unwrap_or("");
        if hint.prefix.as_slice() != prefix.as_bytes() {
            return false;
        }
    }
    words.next().is_none()
}

fn is_whole(meaning: &Meaning<'_>) -> bool {
    has_names(meaning, "format source title")
        && has_prefixes(meaning, "m n x")
        && meaning.places.as_slice() == [10, 20, 21].as_slice()
}

fn is_merged(alloc: Global) -> bool {
    matches!(merged(alloc, "format", "source title"), Some(meaning) if is_whole(&meaning))
}

fn is_owned(alloc: Global) -> bool {
    let Some(meaning) = merged(alloc, "format", "source title") else {
        return false;
    };
    matches!(own(alloc, &meaning), Ok(owned) if is_whole(&owned))
}

#[test]
fn an_extended_text_stands_after_the_packet(rt: HostRuntime) -> Result<(), Fail> {
    assert!(rt; is_merged(rt.alloc()));
    assert!(rt; is_owned(rt.alloc()));
    Ok(())
}

#[test]
fn a_property_in_both_is_told_by_its_place(rt: HostRuntime) -> Result<(), Fail> {
    let place = place_of_twice(rt.alloc(), "format title", "source title format");
    assert!(rt; place == Some(21));
    Ok(())
}
