//! First faults with their places, and a document with its tree, by the standard.

use std::alloc::Global;
use std::test::Fail;
use xml_grammar::{Attribute, Child, Element};
use xmp_values::{Hints, Rule};
use xmp_xml::{Doc, XmlStop, read};

/// The fault of a text, or none where it has a document.
fn fault_of(alloc: Global, text: &[u8]) -> Option<(Rule, u64)> {
    match read(alloc, text) {
        Err(XmlStop::Fault(rule, at)) => Some((rule, at)),
        _ => None,
    }
}

/// Whether this is the text's first fault.
fn has_fault(alloc: Global, text: &[u8], rule: Rule, at: u64) -> bool {
    fault_of(alloc, text) == Some((rule, at))
}

const FAULTS: [(&str, Rule, u64); 20] = [
    ("<a><b></a>", Rule::Mismatch, 6),
    ("<a>]]></a>", Rule::BadChar, 3),
    ("<a b=\"1\" b=\"2\"/>", Rule::TwiceAttribute, 0),
    ("<a>&copy;</a>", Rule::BadReference, 3),
    ("<a>", Rule::Unfinished, 3),
    ("<a/><b/>", Rule::OutsideRoot, 4),
    ("\u{FEFF}<a>&#0;</a>", Rule::BadReference, 6),
    ("<a/>\n b", Rule::OutsideRoot, 6),
    (
        "<?xml version='1.0' encoding='latin1'?><a/>",
        Rule::Encoding,
        0,
    ),
    ("<a xmlns:p=''/>", Rule::BadNamespace, 0),
    ("<a><p:b xmlns:q='u'/></a>", Rule::UnboundPrefix, 3),
    (
        "<a xmlns:p='u' xmlns:q='u' p:b='' q:b=''/>",
        Rule::TwiceAttribute,
        0,
    ),
    ("<a xmlns:p='u' xmlns:p='v'/>", Rule::TwiceAttribute, 0),
    ("<!DOCTYPE a><a/>", Rule::Doctype, 0),
    ("<a><b c></b></a>", Rule::BadTag, 3),
    ("<a><!-- -- --></a>", Rule::BadComment, 3),
    ("<a><?XML b?></a>", Rule::BadInstruction, 3),
    ("<a><![CDATA[</a>", Rule::BadCdata, 3),
    ("<a></a></a>", Rule::OutsideRoot, 7),
    ("<a><b xmlns:p='v'/><p:c/></a>", Rule::UnboundPrefix, 19),
];

#[test]
fn the_first_fault_is_named(rt: HostRuntime) {
    for (text, rule, at) in FAULTS {
        assert!(rt;
            has_fault(rt.alloc(), text.as_bytes(), rule, at),
            "of {text}"
        );
    }
    assert!(rt; has_fault(rt.alloc(), b"\xFF\xFE<\0", Rule::Utf16, 0));
    assert!(rt; has_fault(rt.alloc(), b"<a>\x80</a>", Rule::NotUtf8, 3));
}

#[test]
fn an_element_at_depth_101_is_too_deep(rt: HostRuntime) -> Result<(), Fail> {
    let mut text = Vec::new(rt.alloc());
    for _ in 0..101 {
        text.extend_from_slice(b"<a>")?;
    }
    assert!(rt; has_fault(rt.alloc(), text.as_slice(), Rule::TooDeep, 300));
    Ok(())
}

/// Whether an element has this namespace and this local part.
fn is_named(element: &Element<'_>, space: &[u8], local: &[u8]) -> bool {
    element.name.space.bytes() == space && element.name.local.bytes() == local
}

fn is_in(attribute: Option<&Attribute<'_>>, space: &[u8]) -> bool {
    match attribute {
        Some(attribute) => attribute.name.space.bytes() == space,
        None => false,
    }
}

fn is_text(child: Option<&Child<'_>>, bytes: &[u8]) -> bool {
    match child {
        Some(Child::Text(text)) => text.bytes() == bytes,
        _ => false,
    }
}

fn is_element(child: Option<&Child<'_>>, space: &[u8], local: &[u8], at: u64) -> bool {
    match child {
        Some(Child::Element(element)) => is_named(element, space, local) && element.at() == at,
        _ => false,
    }
}

fn is_hint(hints: &Hints, space: &[u8], prefix: &[u8]) -> bool {
    match hints.get(0) {
        Some(hint) => hint.space.as_slice() == space && hint.prefix.as_slice() == prefix,
        None => false,
    }
}

/// Whether the root is `a` of `u` with two attributes, a text and the element `d` of `v`.
fn is_tree(root: &Element<'_>) -> bool {
    if !is_named(root, b"u", b"a") || root.attributes.len() != 2 || root.children.len() != 2 {
        return false;
    }
    if !is_in(root.attributes.get(0), b"v") || !is_in(root.attributes.get(1), b"") {
        return false;
    }
    is_text(root.children.get(0), b"x<y\n") && is_element(root.children.get(1), b"v", b"d", 55)
}

fn has_tree(alloc: Global, text: &[u8]) -> bool {
    match read(alloc, text) {
        Ok(doc) => is_tree(doc.root()) && is_hint(doc.declared(), b"v", b"p"),
        Err(_) => false,
    }
}

#[test]
fn a_document_has_its_tree(rt: HostRuntime) {
    let text = b"<a xmlns='u' xmlns:p='v' p:b='1' c='2'>x&lt;<!-- -->y\r\n<p:d/><![CDATA[]]></a>";
    assert!(rt; has_tree(rt.alloc(), text));
}

/// Whether `a` and `d` are of `u`, and `b` between them of `v`.
fn is_scoped(root: &Element<'_>) -> bool {
    is_named(root, b"u", b"a")
        && is_element(root.children.get(0), b"v", b"b", 17)
        && is_element(root.children.get(1), b"u", b"d", 46)
}

fn has_scopes(alloc: Global, text: &[u8]) -> bool {
    match read(alloc, text) {
        Ok(doc) => is_scoped(doc.root()),
        Err(_) => false,
    }
}

#[test]
fn a_prefix_is_bound_anew_inside_an_element(rt: HostRuntime) {
    let text = b"<p:a xmlns:p='u'><p:b xmlns:p='v'><p:c/></p:b><p:d/></p:a>";
    assert!(rt; has_scopes(rt.alloc(), text));
}

/// Whether `a`, its attribute and `c` inside it are of `u&v`, which the one hint has with `p`.
fn shares_a_space(doc: &Doc<'_>) -> bool {
    let root = doc.root();
    is_named(root, b"u&v", b"a")
        && is_in(root.attributes.get(0), b"u&v")
        && is_element(root.children.get(0), b"u&v", b"c", 31)
        && is_hint(doc.declared(), b"u&v", b"p")
}

fn has_shared_space(alloc: Global, text: &[u8]) -> bool {
    match read(alloc, text) {
        Ok(doc) => shares_a_space(&doc),
        Err(_) => false,
    }
}

#[test]
fn a_namespace_with_a_reference_is_that_of_each_of_its_names(rt: HostRuntime) {
    let text = b"<p:a xmlns:p='u&amp;v' p:b='1'><p:c/></p:a>";
    assert!(rt; has_shared_space(rt.alloc(), text));
}
