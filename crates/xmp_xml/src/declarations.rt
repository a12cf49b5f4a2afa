//! The declarations of a tag.

ghost use Rattle.std.specs.Prelude.{◌≡◌, [], ◌∷◌, ◌++◌, length, IfOk, OnOk};
ghost use Rattle.std.specs.List.{list_any, filter_map};
ghost use Rattle.xml_grammar.specs.Scopes.{is_reserved, is_misbound_to, is_misbound};
ghost use Rattle.xml_grammar.specs.Trees.{hint_of};
ghost use Rattle.xmp_xml.specs.Bounds.{binding_in, bindings_in};
ghost use Rattle.xmp_xml.specs.Building.{is_nil};

use std::alloc::Global;
use std::marker::Model;
use xmp_values::{Bytes, Hint, Memory, Sequence, Text, is_xml_namespace, is_xmlns_namespace};

/// A prefix, or none for the default namespace, and what is bound to it.
#[derive(Drop)]
pub struct Bound<'p> {
    pub prefix: Option<Text<'p>>,
    pub space: Text<'p>,
}

/// The declarations of one tag, in their order.
#[derive(Drop)]
pub struct Declared<'p> {
    list: Sequence<Bound<'p>>,
}

impl<'p> Model for Declared<'p> {
    ghost use Rattle.std.specs.Prelude.{List};
    ghost use Rattle.xml_grammar.specs.Scopes.{Binding};
    ghost use Rattle.xmp_xml.specs.Bindings.{bindings_code};

    ghost Value = { List Binding };

    ghost coded = { bindings_code };

    ghost use Rattle.xmp_xml.specs.Bounds.{bindings_in};

    ghost view = { λ d. bindings_in d.list };
}

impl<'p> Declared<'p> {
    pub fn new(alloc: Global) -> Declared<'p>
        ensures { result ≡ [] }
    {
        Declared {
            list: Sequence::new(alloc),
        }
    }

    /// One declaration more, at the end.
    pub fn push(&mut self, bound: Bound<'p>) -> Result<(), Memory>
        ensures { OnOk result (self.new ≡ self.old ++ binding_in bound.entry ∷ []) }
    {
        self.list.push(bound)
    }

    #[tactic(auto, using(crate::proofs::Nests::nil_is))]
    pub fn is_empty(&self) -> bool
        ensures { result ≡ is_nil self.now }
    {
        self.list.len() == 0
    }

    pub fn len(&self) -> usize
        ensures { result ≡ length self.now }
    {
        self.list.len()
    }

    pub fn into_list(self) -> Sequence<Bound<'p>>
        ensures { bindings_in result ≡ self.entry }
    {
        let Declared { list } = self;
        list
    }

    /// Whether one of them isn't allowed.
    pub fn has_misbound(&self) -> bool
        ensures { result ≡ list_any is_misbound self.now }
    {
        any_misbound(self.list.as_slice())
    }

    /// The hints that they are.
    pub fn hints(&self, alloc: Global) -> Result<Sequence<Hint>, Memory>
        ensures { IfOk result (λ hs. hs ≡ filter_map hint_of self.now) }
    {
        hints_in(alloc, self.list.as_slice())
    }
}

fn any_misbound(list: &[Bound<'_>]) -> bool
    ensures { result ≡ list_any is_misbound (bindings_in list.now) }
{
    for bound in list {
        if is_misbound(&bound.prefix, bound.space.bytes()) {
            return true;
        }
    }
    false
}

fn hints_in(alloc: Global, list: &[Bound<'_>]) -> Result<Sequence<Hint>, Memory>
    ensures { IfOk result (λ hs. hs ≡ filter_map hint_of (bindings_in list.now)) }
{
    let mut hints = Sequence::new(alloc);
    for bound in list {
        add_hint(alloc, &mut hints, bound)?;
    }
    Ok(hints)
}

fn add_hint(alloc: Global, hints: &mut Sequence<Hint>, bound: &Bound<'_>) -> Result<(), Memory>
    ensures { OnOk result (hints.new ≡ hints.old ++ filter_map hint_of (bindings_in (bound.now ∷ []))) }
{
    if let Some(prefix) = &bound.prefix {
        hints.push(Hint {
            space: Bytes::from_slice(alloc, bound.space.bytes())?,
            prefix: Bytes::from_slice(alloc, prefix.bytes())?,
        })?;
    }
    Ok(())
}

/// A namespace that belongs to a prefix of its own.
fn is_reserved(space: &[u8]) -> bool
    ensures { result ≡ is_reserved space.now }
{
    is_xml_namespace(space) || is_xmlns_namespace(space)
}

/// Whether a declaration isn't allowed.
fn is_misbound(prefix: &Option<Text<'_>>, space: &[u8]) -> bool
    ensures { result ≡ is_misbound_to prefix.now space.now }
{
    match prefix {
        None => is_reserved(space),
        Some(prefix) => {
            if prefix.bytes() == b"xmlns".as_slice() {
                true
            } else if prefix.bytes() == b"xml".as_slice() {
                !is_xml_namespace(space)
            } else {
                is_reserved(space) || space == b"".as_slice()
            }
        }
    }
}
