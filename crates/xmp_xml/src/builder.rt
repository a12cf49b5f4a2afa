//! The element tree, as far as it is read.

ghost use Rattle.std.specs.Prelude.{◌≡◌, IfOk, OnOk};
ghost use Rattle.xmp_xml.specs.Building.{start, document, bound_of, element, flushed, passed, with_text, within, with_frame, rooted, nested, closed, closed_if};

use crate::pending::Pending;
use crate::scopes::Scope;
use crate::stack::Stack;
use std::alloc::Global;
use std::mem::replace;
use xml_grammar::{Attributes, Child, Children, Element, QName};
use xmp_values::{Hint, Memory, Name, Sequence, Text};

/// An element that is open, with its children so far; or the document, around the root.
#[derive(Drop)]
pub struct Frame<'p> {
    pub at: u64,
    /// The name as the tag spells it.
    pub spelled: QName<'p>,
    pub name: Name<'p>,
    pub attributes: Attributes<'p>,
    /// How many declarations its tag has.
    pub declared: usize,
    pub children: Children<'p>,
}

#[derive(Drop)]
pub struct Builder<'p> {
    /// Nothing is read yet.
    pub first: bool,
    pub outer: Stack<Frame<'p>>,
    pub top: Frame<'p>,
    /// The text that is not yet a child.
    pub text: Pending<'p>,
    pub root: Option<Element<'p>>,
    /// Each declaration of a prefix, in the order of the text.
    pub hints: Sequence<Hint>,
    /// The declarations in force inside the root.
    pub scope: Scope<'p>,
}

fn document_frame<'p>(alloc: Global) -> Frame<'p>
    ensures { result ≡ document }
{
    Frame {
        at: 0,
        spelled: QName {
            prefix: None,
            local: Text::raw(b""),
        },
        name: Name {
            space: Text::raw(b""),
            local: Text::raw(b""),
        },
        attributes: Attributes::new(alloc),
        declared: 0,
        children: Children::new(alloc),
    }
}

/// The builder before anything is read.
pub fn new_builder<'p>(alloc: Global) -> Builder<'p>
    ensures { result ≡ start }
{
    Builder {
        first: true,
        outer: Stack::new(alloc),
        top: document_frame(alloc),
        text: Pending::new(),
        root: None,
        hints: Sequence::new(alloc),
        scope: Scope::new(alloc),
    }
}

/// The text that is read becomes a child.
fn flush(alloc: Global, builder: &mut Builder<'_>) -> Result<(), Memory>
    ensures { OnOk result (builder.new ≡ flushed builder.old) }
{
    let text = replace(&mut builder.text, Pending::new());
    if !text.is_empty() {
        let text = text.into_text(alloc)?;
        builder.top.children.push(Child::Text(text))?;
    }
    Ok(())
}

/// A piece without meaning is read.
pub fn pass(builder: &mut Builder<'_>)
    ensures { builder.new ≡ passed builder.old }
{
    builder.first = false;
}

/// Text is read.
pub fn add_text<'p>(alloc: Global, builder: &mut Builder<'p>, more: Text<'p>) -> Result<(), Memory>
    ensures { OnOk result (builder.new ≡ with_text builder.old more.entry) }
{
    builder.first = false;
    if builder.outer.is_empty() {
        return Ok(());
    }
    let text = replace(&mut builder.text, Pending::new());
    builder.text = text.with(alloc, more)?;
    Ok(())
}

/// Puts the declarations that are in force for a tag in place: outside the root those of no tag.
pub fn scope_tag(alloc: Global, builder: &mut Builder<'_>) -> Result<(), Memory>
    ensures { OnOk result (builder.new ≡ within builder.old (bound_of builder.old.outer builder.old.scope)) }
{
    if builder.outer.is_empty() {
        let predeclared = Scope::predeclared(alloc)?;
        let _none = replace(&mut builder.scope, predeclared);
    }
    Ok(())
}

/// An element begins, inside which the builder's declarations are in force.
pub fn begin<'p>(
    alloc: Global,
    builder: &mut Builder<'p>,
    frame: Frame<'p>,
    declared: Sequence<Hint>,
) -> Result<(), Memory>
    ensures { OnOk result (builder.new ≡ with_frame builder.old frame.entry declared) }
{
    flush(alloc, builder)?;
    let around = replace(&mut builder.top, frame);
    builder.outer.push(around)?;
    builder.hints.append(declared)?;
    builder.first = false;
    Ok(())
}

fn element_of<'p>(frame: Frame<'p>) -> Element<'p>
    ensures { result ≡ element frame.entry }
{
    let Frame {
        at,
        spelled: _,
        name,
        attributes,
        declared: _,
        children,
    } = frame;
    Element {
        at,
        name,
        attributes,
        children,
    }
}

/// The innermost element is the root.
fn end_root<'p>(builder: &mut Builder<'p>, document: Frame<'p>)
    ensures { builder.new ≡ rooted builder.old document.entry }
{
    let root = replace(&mut builder.top, document);
    builder.root = Some(element_of(root));
}

/// The innermost element is a child of the next.
fn end_child<'p>(alloc: Global, builder: &mut Builder<'p>, parent: Frame<'p>) -> Result<(), Memory>
    ensures { OnOk result (builder.new ≡ nested builder.old parent.entry) }
{
    let child = replace(&mut builder.top, parent);
    builder.scope.leave(alloc, child.declared)?;
    builder
        .top
        .children
        .push(Child::Element(element_of(child)))?;
    Ok(())
}

/// The innermost element ends.
pub fn end(alloc: Global, builder: &mut Builder<'_>) -> Result<(), Memory>
    ensures { OnOk result (builder.new ≡ closed builder.old) }
{
    flush(alloc, builder)?;
    builder.first = false;
    match builder.outer.pop() {
        None => Ok(()),
        Some(document) if builder.outer.is_empty() => {
            end_root(builder, document);
            Ok(())
        }
        Some(parent) => end_child(alloc, builder, parent),
    }
}

/// An empty element ends where it begins.
pub fn end_if(alloc: Global, empty: bool, builder: &mut Builder<'_>) -> Result<(), Memory>
    ensures { OnOk result (builder.new ≡ closed_if empty builder.old) }
{
    if empty { end(alloc, builder) } else { Ok(()) }
}
