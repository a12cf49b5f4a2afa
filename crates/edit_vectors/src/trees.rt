//! Lists of members that are well-formed or not, and trees that are compared.
use std::alloc::Global;
use std::test::Fail;
use xmp_tree::{
    Member, Members, Shape, Tree, Value, are_well_formed_qualifiers, copy, equal, is_well_formed,
};
use xmp_values::{Bytes, Memory, Name, Text};

const DC: &str = "http://purl.org/dc/elements/1.1/";

const RDF: &str = "http://www.w3.org/1999/02/22-rdf-syntax-ns#";

const XML: &str = "http://www.w3.org/XML/1998/namespace";

const XMLNS: &str = "http://www.w3.org/2000/xmlns/";

const NOTE: &str = "http://ns.adobe.com/xmp/note/";
/// A namespace with a character that XML doesn't have.
const BAD: &str = "urn:\u{1}";

/// A namespace, a local part, whether the text is a URI, and the text.
type Said = (&'static str, &'static str, bool, &'static str);

/// Lists of members, and whether each may be the properties of a tree, and the qualifiers of a value.
const LISTS: [(&[Said], bool, bool); 28] = [
    (&[(DC, "format", false, "image/jpeg")], true, true),
    (&[(DC, "", false, "x")], false, false),
    (&[(DC, "1a", false, "x")], false, false),
    (&[(DC, "-a", false, "x")], false, false),
    (&[(DC, "dc:a", false, "x")], false, false),
    (&[(DC, "\u{E9}t\u{E9}-1", false, "x")], true, true),
    (&[(DC, "\u{D7}", false, "x")], false, false),
    (&[("", "a", false, "x")], false, false),
    (&[(BAD, "a", false, "x")], false, false),
    (&[(RDF, "value", false, "x")], false, false),
    (&[(XMLNS, "a", false, "x")], false, false),
    (&[(XML, "lang", false, "en")], false, true),
    (&[(XML, "lang", true, "en")], false, false),
    (&[(XML, "base", false, "x")], false, false),
    (&[(RDF, "type", true, "urn:t")], false, true),
    (&[(RDF, "type", false, "urn:t")], false, false),
    (&[(NOTE, "HasExtendedXMP", false, "x")], false, true),
    (&[(NOTE, "Other", false, "x")], true, true),
    (
        &[(DC, "a", false, "\t\n\r\u{D7FF}\u{E000}\u{FFFD}\u{10FFFF}")],
        true,
        true,
    ),
    (&[(DC, "a", false, "\u{FFFE}")], false, false),
    (&[(DC, "a", false, "\u{0}")], false, false),
    (&[(DC, "a", true, "\u{B}")], false, false),
    (
        &[
            (DC, "a", false, "x"),
            (DC, "b", false, "x"),
            (NOTE, "a", false, "x"),
        ],
        true,
        true,
    ),
    (
        &[
            (DC, "a", false, "x"),
            (DC, "b", false, "x"),
            (DC, "a", false, "x"),
        ],
        false,
        false,
    ),
    (
        &[
            (DC, "b", false, "x"),
            (DC, "a", false, "x"),
            (DC, "a", false, "x"),
        ],
        false,
        false,
    ),
    (
        &[
            (XML, "lang", false, "en"),
            (DC, "a", false, "x"),
            (RDF, "type", true, "urn:t"),
        ],
        false,
        true,
    ),
    (
        &[(DC, "a", false, "x"), (XML, "lang", false, "en")],
        false,
        false,
    ),
    (
        &[
            (XML, "lang", false, "en"),
            (DC, "a", false, "x"),
            (XML, "lang", false, "de"),
        ],
        false,
        false,
    ),
];

fn member(
    alloc: Global,
    space: &'static str,
    local: &'static str,
    uri: bool,
    text: &'static str,
) -> Member<'static> {
    let text = Text::raw(text.as_bytes());
    let shape = if uri {
        Shape::Uri(text)
    } else {
        Shape::Simple(text)
    };
    let quals = Members::new(alloc);
    let name = Name {
        space: Text::raw(space.as_bytes()),
        local: Text::raw(local.as_bytes()),
    };
    Member {
        name,
        value: Value { shape, quals },
    }
}

fn members_of(alloc: Global, list: &[Said]) -> Result<Members<'static>, Memory> {
    let mut members = Members::new(alloc);
    for (space, local, uri, text) in list {
        members.push(member(alloc, space, local, *uri, text))?;
    }
    Ok(members)
}

/// Whether a list of members is taken as properties and as qualifiers as said.
fn is_as_said(alloc: Global, list: &[Said], props: bool, quals: bool) -> Result<bool, Memory> {
    let members = members_of(alloc, list)?;
    let are_props = is_well_formed(alloc, &Text::raw(b""), members.as_slice())?;
    let are_quals = are_well_formed_qualifiers(alloc, members.as_slice(), 1)?;
    Ok(are_props == props && are_quals == quals)
}

#[test]
fn lists_of_members_are_tested(rt: HostRuntime) -> Result<(), Fail> {
    for (list, props, quals) in LISTS {
        assert!(rt; is_as_said(rt.alloc(), list, props, quals)?, "{list:?}");
    }
    Ok(())
}

/// A structure in a structure and so on, as many as the levels, round a text.
fn nested(alloc: Global, levels: usize) -> Result<Members<'static>, Memory> {
    let mut members = Members::new(alloc);
    members.push(member(alloc, DC, "a", false, "held"))?;
    for _ in 0..levels {
        let shape = Shape::Struct(members);
        let value = Value {
            shape,
            quals: Members::new(alloc),
        };
        let name = Name {
            space: Text::raw(DC.as_bytes()),
            local: Text::raw(b"a"),
        };
        members = Members::new(alloc);
        members.push(Member { name, value })?;
    }
    Ok(members)
}

/// Whether the properties make a tree whose copy is equal to it.
fn is_copied(alloc: Global, props: Members<'static>) -> Result<bool, Memory> {
    match Tree::checked(alloc, Text::raw(b"urn:about"), props)? {
        Some(tree) => is_equal_to_its_copy(alloc, &tree),
        None => Ok(false),
    }
}

fn is_equal_to_its_copy(alloc: Global, tree: &Tree<'_>) -> Result<bool, Memory> {
    let twin = copy(alloc, tree)?;
    Ok(equal(tree, &twin))
}

#[test]
fn a_tree_has_24_levels(rt: HostRuntime) -> Result<(), Fail> {
    let alloc = rt.alloc();
    assert!(rt; is_copied(alloc, nested(alloc, 23)?)?);
    assert!(rt; !is_copied(alloc, nested(alloc, 24)?)?);
    assert!(rt; !is_well_formed(alloc, &Text::raw(b"\x01"), &[])?);
    assert!(rt; !is_well_formed(alloc, &Text::raw(b"\xFF"), &[])?);
    Ok(())
}

/// Properties `p0`, `p1` and so on, each with its number as its text.
fn numbered(alloc: Global, count: usize) -> Result<Members<'static>, Fail> {
    let mut members = Members::new(alloc);
    for i in 0..count {
        let local = format!(in alloc; "p{i}")?;
        let number = format!(in alloc; "{i}")?;
        let shape = Shape::Simple(Text::own(alloc, Bytes::from_slice(alloc, number.as_bytes())?)?);
        let value = Value {
            shape,
            quals: Members::new(alloc),
        };
        let name = Name {
            space: Text::raw(DC.as_bytes()),
            local: Text::own(alloc, Bytes::from_slice(alloc, local.as_bytes())?)?,
        };
        members.push(Member { name, value })?;
    }
    Ok(members)
}

/// The time grows as n log n: the whole takes well under two seconds.
#[test]
fn a_tree_of_200000_properties_is_tested_and_compared(rt: HostRuntime) -> Result<(), Fail> {
    let alloc = rt.alloc();
    assert!(rt; is_copied(alloc, numbered(alloc, 200_000)?)?);
    Ok(())
}
