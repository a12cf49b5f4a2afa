//! Hints: namespaces, each with the prefix under which a writer may declare it.
ghost use Rattle.std.specs.Prelude.{◌≡◌, ◌↔◌, ◌++◌, ◌∷◌, [], length, slice_get, if◌then◌else◌, IfOk, IsTrue, OnOk, OnErr};
ghost use Rattle.std.specs.Option.{option_copied};
ghost use Rattle.xmp_values.specs.Hints.{AreValid, IsValidHint, has_space, prefix_in, space_in};

use crate::characters::{is_char_text, is_name};
use crate::spaces::is_xmlns_namespace;
use crate::{Bytes, Memory, Sequence};
use std::alloc::Global;
use std::marker::Model;

/// A namespace and its prefix.
#[derive(Drop)]
pub struct Hint {
    /// The namespace, of one or more Chars.
    pub space: Bytes,
    /// The prefix, a name without colon.
    pub prefix: Bytes,
}

impl Hint {
    /// A copy of the hint.
    pub fn try_clone(&self, alloc: Global) -> Result<Hint, Memory>
        ensures { IfOk result (λ h. h ≡ self.now) }
    {
        let space = Bytes::from_slice(alloc, self.space.as_slice())?;
        let prefix = Bytes::from_slice(alloc, self.prefix.as_slice())?;
        Ok(Hint { space, prefix })
    }
}

/// Whether a hint is valid by itself: its namespace is text of one or more Chars and isn't that of
/// `xmlns`, and its prefix is a name without colon (Namespaces in XML 1.0, section 3).
pub fn is_valid_hint(hint: &Hint) -> bool
    ensures { IsTrue result ↔ IsValidHint hint.now }
{
    let space = hint.space.as_slice();
    if space.is_empty() || is_xmlns_namespace(space) {
        return false;
    }
    is_char_text(space) && is_name(hint.prefix.as_slice())
}

/// A list of hints that are valid together: each namespace once.
#[derive(Drop)]
pub struct Hints {
    list: Sequence<Hint>,
}

impl Model for Hints {
    ghost use Rattle.std.specs.Prelude.{List};
    ghost use Rattle.xmp_values.specs.declared.hints.Hint.{Hint};

    ghost Value = { List Hint };

    ghost use Rattle.xmp_values.specs.Hints.{AreValid};

    ghost view = { λ h. h.list };

    ghost invariant = { λ h. AreValid h.list };
}

impl Hints {
    /// No hints, which takes no memory.
    pub fn new(alloc: Global) -> Hints
        ensures { result ≡ [] }
    {
        Hints {
            list: Sequence::new(alloc),
        }
    }

    /// A list that is valid.
    pub fn from_list(list: Sequence<Hint>) -> Hints
        requires { AreValid list }
        ensures { result ≡ list }
    {
        Hints { list }
    }

    /// Puts a hint at the end, with which the list is to stay valid.
    pub fn push(&mut self, hint: Hint) -> Result<(), Memory>
        requires { AreValid (self.old ++ hint ∷ []) }
        ensures ok { OnOk result (self.new ≡ self.old ++ hint ∷ []) }
        ensures err { OnErr result (self.new ≡ self.old) }
    {
        self.list.push(hint)?;
        Ok(())
    }

    /// Puts a hint at the end if the list stays valid with it, and tells whether it did. The time
    /// grows with the list, since the namespaces are compared one by one.
    pub fn push_if_valid(&mut self, hint: Hint) -> Result<bool, Memory>
        ensures valid { IfOk result (λ is_valid. IsTrue is_valid ↔ AreValid (self.old ++ hint ∷ [])) }
        ensures list { IfOk result (λ is_valid. self.new ≡ (if is_valid then self.old ++ hint ∷ [] else self.old)) }
        ensures err { OnErr result (self.new ≡ self.old) }
    {
        if !self.stays_valid(&hint) {
            return Ok(false);
        }
        self.push(hint)?;
        Ok(true)
    }

    /// Whether the list stays valid with one hint more.
    fn stays_valid(&self, hint: &Hint) -> bool
        ensures { IsTrue result ↔ AreValid (self.now ++ hint.now ∷ []) }
    {
        is_valid_hint(hint) && !has_space(self.as_slice(), hint.space.as_slice())
    }

    /// The prefix of a namespace; None exactly where no hint is of it. The time grows with the list.
    pub fn prefix_of(&self, space: &[u8]) -> Option<&[u8]>
        ensures { option_copied result ≡ prefix_in self.now space.now }
    {
        prefix_in(self.as_slice(), space)
    }

    /// The namespace of the first hint with a prefix; None exactly where there is none. The time
    /// grows with the list.
    pub fn space_of(&self, prefix: &[u8]) -> Option<&[u8]>
        ensures { option_copied result ≡ space_in self.now prefix.now }
    {
        space_in(self.as_slice(), prefix)
    }

    /// The number of hints.
    pub fn len(&self) -> usize
        ensures count { result ≡ length self.now }
        ensures valid { AreValid self.now }
    {
        self.list.len()
    }

    /// The hint at a place, from 0; None exactly where there is none.
    pub fn get(&self, at: usize) -> Option<&Hint>
        ensures { option_copied result ≡ slice_get self.now at }
    {
        self.list.get(at)
    }

    /// The hints.
    pub fn as_slice(&self) -> &[Hint]
        ensures hints { result.now ≡ self.now }
        ensures valid { AreValid self.now }
    {
        self.list.as_slice()
    }

    /// A copy of the hints.
    pub fn try_clone(&self, alloc: Global) -> Result<Hints, Memory>
        ensures { IfOk result (λ hs. hs ≡ self.now) }
    {
        Ok(Hints::from_list(copies(alloc, self.as_slice())?))
    }

    /// The hints as a list, without copying them.
    pub fn into_sequence(self) -> Sequence<Hint>
        ensures { result ≡ self }
    {
        let Hints { list } = self;
        list
    }
}

/// Whether a hint is of the namespace.
fn has_space(hints: &[Hint], space: &[u8]) -> bool
    ensures { result ≡ has_space hints.now space.now }
{
    hints.iter().any(|hint| space == hint.space.as_slice())
}

fn prefix_in<'h>(hints: &'h [Hint], space: &[u8]) -> Option<&'h [u8]>
    ensures { option_copied result ≡ prefix_in hints.now space.now }
{
    for hint in hints {
        if space == hint.space.as_slice() {
            return Some(hint.prefix.as_slice());
        }
    }
    None
}

fn space_in<'h>(hints: &'h [Hint], prefix: &[u8]) -> Option<&'h [u8]>
    ensures { option_copied result ≡ space_in hints.now prefix.now }
{
    for hint in hints {
        if prefix == hint.prefix.as_slice() {
            return Some(hint.space.as_slice());
        }
    }
    None
}

fn copies(alloc: Global, hints: &[Hint]) -> Result<Sequence<Hint>, Memory>
    ensures { IfOk result (λ hs. hs ≡ hints.now) }
{
    let mut list = Sequence::new(alloc);
    for hint in hints {
        list.push(hint.try_clone(alloc)?)?;
    }
    Ok(list)
}
