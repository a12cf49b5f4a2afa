//! Hints as they are looked up.
ghost use Rattle.std.specs.Prelude.{◌≡◌, ◌<◌, ◌^◌, IfOk, length};
ghost use Rattle.std.specs.Option.{option_copied};
ghost use Rattle.xmp_values.specs.Hints.{prefix_in, space_in, has_prefix};
ghost use Rattle.xmp_values.specs.HintMaps.{HasPrefixes, HasSpaces};

use crate::{Hint, Memory};
use std::alloc::Global;
use std::collections::BTreeMap;
use std::marker::Model;

/// Hints by their namespaces and by their prefixes. A look-up costs the logarithm of their number.
#[derive(Drop)]
pub struct HintMap<'h> {
    list: &'h [Hint],
    prefixes: BTreeMap<&'h [u8], &'h [u8]>,
    spaces: BTreeMap<&'h [u8], &'h [u8]>,
}

impl<'h> Model for HintMap<'h> {
    ghost use Rattle.std.specs.Prelude.{List};
    ghost use Rattle.xmp_values.specs.declared.hints.Hint.{Hint};
    ghost use Rattle.xmp_values.specs.HintMaps.{HasPrefixes, HasSpaces};

    ghost Value = { List Hint };

    ghost view = { λ h. h.list.now };

    ghost invariant = { λ h. HasPrefixes h.prefixes h.list.now × HasSpaces h.spaces h.list.now };
}

/// The prefix of each namespace. They are put in from the last hint on, so that the first of a
/// namespace counts.
fn prefix_map<'h>(alloc: Global, hints: &'h [Hint]) -> Result<BTreeMap<&'h [u8], &'h [u8]>, Memory>
    ensures { IfOk result (λ map. HasPrefixes map hints.now) }
{
    let mut map = BTreeMap::new(alloc);
    let mut at = hints.len();
    while at > 0 {
        at -= 1;
        let hint = &hints[at];
        map.insert(hint.space.as_slice(), hint.prefix.as_slice())?;
    }
    Ok(map)
}

/// The namespace of each prefix. They are put in from the last hint on, so that the first with a
/// prefix counts.
fn space_map<'h>(alloc: Global, hints: &'h [Hint]) -> Result<BTreeMap<&'h [u8], &'h [u8]>, Memory>
    ensures { IfOk result (λ map. HasSpaces map hints.now) }
{
    let mut map = BTreeMap::new(alloc);
    let mut at = hints.len();
    while at > 0 {
        at -= 1;
        let hint = &hints[at];
        map.insert(hint.prefix.as_slice(), hint.space.as_slice())?;
    }
    Ok(map)
}

impl<'h> HintMap<'h> {
    /// The hints of a list. The time grows as n log n with their number.
    pub fn new(alloc: Global, list: &'h [Hint]) -> Result<HintMap<'h>, Memory>
        ensures { IfOk result (λ h. h ≡ list.now) }
    {
        let prefixes = prefix_map(alloc, list)?;
        let spaces = space_map(alloc, list)?;
        Ok(HintMap {
            list,
            prefixes,
            spaces,
        })
    }

    /// The number of hints.
    pub fn len(&self) -> usize
        ensures count { result ≡ length self.now }
        ensures small { result < 2 ^ 62 }
    {
        self.list.len()
    }

    /// The prefix of the first hint of a namespace; None exactly where there is none.
    pub fn prefix_of(&self, space: &[u8]) -> Option<&'h [u8]>
        ensures { option_copied result ≡ prefix_in self.now space.now }
    {
        self.prefixes.get(space).copied()
    }

    /// The namespace of the first hint with a prefix; None exactly where there is none.
    pub fn space_of(&self, prefix: &[u8]) -> Option<&'h [u8]>
        ensures { option_copied result ≡ space_in self.now prefix.now }
    {
        self.spaces.get(prefix).copied()
    }

    /// Whether a hint has the prefix.
    pub fn has_prefix(&self, prefix: &[u8]) -> bool
        ensures { result ≡ has_prefix self.now prefix.now }
    {
        self.space_of(prefix).is_some()
    }
}
