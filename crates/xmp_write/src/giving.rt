//! Prefixes as they are given, namespace by namespace.
ghost use Rattle.std.specs.Prelude.{◌≡◌, List, ◌^◌, ◌<◌, ◌++◌, ◌∷◌, [], IfOk, OnOk, fold, true, not, ◌||◌};
ghost use Rattle.std.specs.Option.{option_copied};
ghost use Rattle.xmp_values.specs.declared.hints.Hint.{Hint};
ghost use Rattle.xmp_write.specs.Prefixes.{numbered, fitting, is_free, free_number, has_prefix, prefix_in, with_prefix};
ghost use Rattle.known_prefixes.specs.Prefixes.{is_known, begins_xml};
ghost use Rattle.xmp_values.specs.Texts.{texts_of};
ghost use Rattle.xmp_write.specs.Giving.{HasGiven, IsGiven};

use itoa::Buffer;
use known_prefixes::{begins_xml, is_known, known_prefix};
use std::alloc::Global;
use std::collections::BTreeSet;
use xmp_values::{Bytes, Hint, HintMap, Memory, Sequence, TextSet};

/// The prefixes that are given so far.
#[derive(Drop)]
pub struct Given {
    /// The namespaces in their order, each with its prefix.
    pub list: Sequence<Hint>,
    /// Their prefixes but for those that were numbered, which no hint has.
    pub taken: BTreeSet<Vec<u8>>,
    /// No numbered prefix below this number is free, and none from it on was given as a number. It
    /// only grows, since what is taken stays so.
    pub next: usize,
}

/// The prefix `nsN` of a number N.
fn numbered(alloc: Global, number: usize) -> Result<Vec<u8>, Memory>
    ensures { IfOk result (λ prefix. prefix.items ≡ numbered number) }
{
    let mut buffer = Buffer::new();
    let mut prefix = Vec::from_slice(alloc, b"ns")?;
    prefix.extend_from_slice(buffer.format(number).as_bytes())?;
    Ok(prefix)
}

impl Given {
    /// Nothing given, which takes no memory.
    pub fn new(alloc: Global) -> Given
        ensures list { result.list ≡ [] }
        ensures given { (hints : List Hint) → IsGiven hints result }
    {
        Given {
            list: Sequence::new(alloc),
            taken: BTreeSet::new(alloc),
            next: 1,
        }
    }

    /// Puts a namespace with its prefix at the end of the list.
    fn push_hint(&mut self, alloc: Global, space: &[u8], prefix: &[u8]) -> Result<(), Memory>
        ensures given { OnOk result (self.new.list ≡ self.old.list ++ record { space = space.now; prefix = prefix.now } ∷ []) }
        ensures taken { self.new.taken ≡ self.old.taken }
        ensures next { self.new.next ≡ self.old.next }
    {
        self.list.push(Hint {
            space: Bytes::from_slice(alloc, space)?,
            prefix: Bytes::from_slice(alloc, prefix)?,
        })?;
        Ok(())
    }

    /// Gives a namespace a prefix that isn't numbered.
    fn push(
        &mut self,
        alloc: Global,
        hints: &HintMap<'_>,
        space: &[u8],
        prefix: &[u8],
    ) -> Result<(), Memory>
        requires { IsGiven hints.now self.old }
        ensures given { OnOk result (self.new.list ≡ self.old.list ++ record { space = space.now; prefix = prefix.now } ∷ []) }
        ensures kept { OnOk result (IsGiven hints.now self.new) }
    {
        self.taken.insert(Vec::from_slice(alloc, prefix)?)?;
        self.push_hint(alloc, space, prefix)
    }

    /// Whether a prefix may be given as a hint's.
    fn may_give(&self, prefix: &[u8]) -> bool
        requires { HasGiven self.now.taken self.now.list prefix.now }
        ensures { result ≡ not (is_known prefix.now || begins_xml prefix.now || has_prefix self.now.list prefix.now) }
    {
        !is_known(prefix) && !begins_xml(prefix) && !self.taken.contains(prefix)
    }

    /// The prefix of a namespace's hint, if it may be given.
    fn fitting<'h>(&self, hints: &'h HintMap<'_>, space: &[u8]) -> Option<&'h [u8]>
        requires { IsGiven hints.now self.now }
        ensures { option_copied result ≡ fitting self.now.list (prefix_in hints.now space.now) }
    {
        let prefix = hints.prefix_of(space)?;
        if self.may_give(prefix) {
            Some(prefix)
        } else {
            None
        }
    }

    /// Whether no hint has the prefix and it isn't given yet.
    fn is_free(&self, hints: &HintMap<'_>, prefix: &[u8]) -> bool
        requires { HasGiven self.now.taken self.now.list prefix.now }
        ensures { result ≡ is_free hints.now self.now.list prefix.now }
    {
        !hints.has_prefix(prefix) && !self.taken.contains(prefix)
    }

    /// The least number whose prefix is free.
    fn free_number(&self, alloc: Global, hints: &HintMap<'_>) -> Result<usize, Memory>
        requires { IsGiven hints.now self.now }
        ensures least { IfOk result (λ n. n ≡ free_number hints.now self.now.list) }
        ensures small { IfOk result (λ n. n < 2 ^ 63) }
        ensures free { IfOk result (λ n. is_free hints.now self.now.list (numbered n) ≡ true) }
    {
        let last = hints.len() + self.list.as_slice().len();
        for number in self.next..last + 1 {
            let prefix = numbered(alloc, number)?;
            if self.is_free(hints, prefix.as_slice()) {
                return Ok(number);
            }
        }
        Ok(last + 1)
    }

    /// Gives a namespace the first free number.
    fn push_number(
        &mut self,
        alloc: Global,
        hints: &HintMap<'_>,
        space: &[u8],
    ) -> Result<(), Memory>
        requires { IsGiven hints.now self.old }
        ensures given { OnOk result (self.new.list ≡ self.old.list ++ record { space = space.now; prefix = numbered (free_number hints.now self.old.list) } ∷ []) }
        ensures kept { OnOk result (IsGiven hints.now self.new) }
    {
        let number = self.free_number(alloc, hints)?;
        let prefix = numbered(alloc, number)?;
        self.push_hint(alloc, space, prefix.as_slice())?;
        self.next = number + 1;
        Ok(())
    }

    /// Gives a namespace the prefix that is due to it.
    fn push_space(&mut self, alloc: Global, hints: &HintMap<'_>, space: &[u8]) -> Result<(), Memory>
        requires { IsGiven hints.now self.old }
        ensures given { OnOk result (self.new.list ≡ with_prefix hints.now self.old.list space.now) }
        ensures kept { OnOk result (IsGiven hints.now self.new) }
    {
        if let Some(prefix) = known_prefix(space) {
            return self.push(alloc, hints, space, prefix);
        }
        match self.fitting(hints, space) {
            Some(prefix) => self.push(alloc, hints, space, prefix),
            None => self.push_number(alloc, hints, space),
        }
    }

    /// Gives namespaces their prefixes, one after the other.
    pub fn push_spaces(
        &mut self,
        alloc: Global,
        hints: &HintMap<'_>,
        spaces: &[&[u8]],
    ) -> Result<(), Memory>
        requires { IsGiven hints.now self.old }
        ensures given { OnOk result (self.new.list ≡ fold (with_prefix hints.now) self.old.list (texts_of spaces.now)) }
        ensures kept { OnOk result (IsGiven hints.now self.new) }
    {
        for space in spaces {
            self.push_space(alloc, hints, space)?;
        }
        Ok(())
    }
}
