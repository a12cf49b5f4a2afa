//! The prefixes of a written text.
ghost use Rattle.std.specs.Prelude.{◌≡◌, ◌+◌, ◌≤◌, [], IfOk, fold, length, slice_get, take, unwrap_or};
ghost use Rattle.std.specs.Option.{option_copied, option_map};
ghost use Rattle.xmp_tree.specs.Wf.{note_name};
ghost use Rattle.xmp_write.specs.Written.{member_spaces};
ghost use Rattle.xmp_write.specs.Prefixes.{prefixes, spaces_in, with_prefix, with_use, written_prefix};
ghost use Rattle.xmp_write.specs.Giving.{IsGiven};
ghost use Rattle.xmp_write.specs.Grown.{IsGrown};

use crate::forms::Form;
use crate::giving::Given;
use crate::uses::{declared_spaces, use_member, use_note_space};
use known_prefixes::fixed_prefix;
use std::alloc::Global;
use std::collections::BTreeSet;
use std::marker::Model;
use xmp_tree::{Member, Tree};
use xmp_values::{Hint, HintMap, Hints, Memory, Sequence, TextSet};

/// The namespaces that a written text declares, each with its prefix, in the order of their first
/// use. A look-up costs the logarithm of their number.
#[derive(Drop)]
pub struct Prefixes<'t> {
    list: Sequence<Hint>,
    /// The namespaces of the list, borrowed from the tree.
    spaces: TextSet<'t>,
}

impl<'t> Model for Prefixes<'t> {
    ghost use Rattle.std.specs.Prelude.{List};
    ghost use Rattle.xmp_values.specs.declared.hints.Hint.{Hint};
    ghost use Rattle.xmp_write.specs.Prefixes.{spaces_in};
    ghost use Rattle.std.specs.Prelude.{◌≡◌};

    ghost Value = { List Hint };

    ghost view = { λ p. p.list };

    ghost invariant = { λ p. p.spaces ≡ spaces_in p.list };
}

impl<'t> Prefixes<'t> {
    /// The prefixes of the text of a tree in a form, whose properties are there. Each namespace
    /// has its known prefix, else that of its hint if it fits, else `ns` and the least free number.
    pub fn of(
        alloc: Global,
        tree: &'t Tree<'_>,
        hints: &Hints,
        form: &Form,
    ) -> Result<Prefixes<'t>, Memory>
        requires { form.now.first + form.now.count ≤ length tree.now.props }
        ensures { IfOk result (λ p. p ≡ prefixes tree.now hints.now form.now) }
    {
        let spaces = declared_spaces(alloc, tree, form)?;
        let hinted = HintMap::new(alloc, hints.as_slice())?;
        Prefixes::given(alloc, &hinted, spaces)
    }

    /// The prefixes of these namespaces.
    pub fn given(
        alloc: Global,
        hints: &HintMap<'_>,
        spaces: TextSet<'t>,
    ) -> Result<Prefixes<'t>, Memory>
        ensures { IfOk result (λ p. p ≡ fold (with_prefix hints.now) [] spaces.entry) }
    {
        let mut given = Given::new(alloc);
        given.push_spaces(alloc, hints, spaces.as_slice())?;
        Ok(Prefixes {
            list: given.list,
            spaces,
        })
    }

    /// The number of namespaces.
    pub fn len(&self) -> usize
        ensures { result ≡ length self.now }
    {
        self.list.len()
    }

    /// The namespaces in their order, each with its prefix.
    pub fn as_slice(&self) -> &[Hint]
        ensures { result.now ≡ self.now }
    {
        self.list.as_slice()
    }

    /// The namespace at a place, from 0, with its prefix; None exactly where there is none.
    pub fn get(&self, at: usize) -> Option<&Hint>
        ensures { option_copied result ≡ slice_get self.now at }
    {
        self.list.get(at)
    }

    /// The prefix at a place; none after the last.
    fn prefix_at(&self, place: usize) -> &[u8]
        ensures { result.now ≡ unwrap_or (option_map (λ h. h.prefix) (slice_get self.now place)) [] }
    {
        match self.list.get(place) {
            Some(hint) => hint.prefix.as_slice(),
            None => b"",
        }
    }

    /// The prefix with which a name of the namespace is written. It is empty where the namespace
    /// isn't of the text.
    pub fn prefix_of(&self, space: &[u8]) -> &[u8]
        ensures { result.now ≡ written_prefix self.now space.now }
    {
        if let Some(prefix) = fixed_prefix(space) {
            return prefix;
        }
        match self.spaces.place_of(space) {
            Some(place) => self.prefix_at(place),
            None => b"",
        }
    }
}

/// The prefixes of a text that grows, with what is kept to give more of them.
#[derive(Drop)]
pub struct Growing<'t> {
    pub prefixes: Prefixes<'t>,
    taken: BTreeSet<Vec<u8>>,
    next: usize,
}

impl<'t> Growing<'t> {
    /// The prefixes of these namespaces, of which the first are given.
    fn of(
        alloc: Global,
        hints: &HintMap<'_>,
        given: Given,
        spaces: TextSet<'t>,
    ) -> Result<Growing<'t>, Memory>
        requires kept { IsGiven hints.now given }
        requires many { length given.list ≤ length spaces }
        requires first { given.list ≡ fold (with_prefix hints.now) [] (take (length given.list) spaces) }
        ensures { IfOk result (λ g. IsGrown hints.now spaces.entry g) }
    {
        let mut given = given;
        let first = given.list.len();
        given.push_spaces(alloc, hints, &spaces.as_slice()[first..])?;
        let Given { list, taken, next } = given;
        Ok(Growing {
            prefixes: Prefixes { list, spaces },
            taken,
            next,
        })
    }

    /// Those of the note.
    pub fn note(alloc: Global, hints: &HintMap<'_>) -> Result<Growing<'t>, Memory>
        ensures { IfOk result (λ g. IsGrown hints.now (with_use [] note_name.space) g) }
    {
        let mut spaces = TextSet::new(alloc);
        use_note_space(&mut spaces)?;
        Growing::of(alloc, hints, Given::new(alloc), spaces)
    }

    /// The prefixes with those of one property more.
    pub fn with_member(
        self,
        alloc: Global,
        hints: &HintMap<'_>,
        member: &'t Member<'_>,
    ) -> Result<Growing<'t>, Memory>
        requires { IsGrown hints.now (spaces_in self.prefixes) self }
        ensures { IfOk result (λ g. IsGrown hints.now (fold with_use (spaces_in self.entry.prefixes) (member_spaces member.now)) g) }
    {
        let Growing {
            prefixes,
            taken,
            next,
        } = self;
        let Prefixes { list, spaces } = prefixes;
        let mut spaces = spaces;
        use_member(&mut spaces, member)?;
        Growing::of(alloc, hints, Given { list, taken, next }, spaces)
    }
}
