//! Sets of names.
ghost use Rattle.std.specs.Prelude.{◌≡◌, ◌≢◌, ◌⊎◌, ◌↔◌, [], IsTrue, IfOk, OnOk, OnErr, Contains, AllPairs, MatchBool};
ghost use Rattle.xmp_values.specs.declared.text.Name.{Name};
ghost use Rattle.xmp_values.specs.Names.{named};

use crate::{Memory, Name};
use std::alloc::Global;
use std::collections::BTreeSet;
use std::marker::Model;

/// A set of names, each a namespace and a local part, that borrows their bytes. To contracts it
/// is the list of its names, in an order of its own. A look-up costs the logarithm of their number.
#[derive(Drop)]
pub struct NameSet<'n> {
    // The local part comes first: it alone tells most names apart.
    keys: BTreeSet<(&'n [u8], &'n [u8])>,
}

impl<'n> Model for NameSet<'n> {
    ghost use Rattle.std.specs.Prelude.{List};
    ghost use Rattle.xmp_values.specs.declared.text.Name.{Name};
    ghost use Rattle.xmp_values.specs.Names.{names_code, names_of};

    ghost Value = { List Name };

    ghost coded = { names_code };

    ghost view = { λ s. names_of s.keys.keys };
}

impl<'n> NameSet<'n> {
    /// The empty set, which takes no memory.
    pub fn new(alloc: Global) -> NameSet<'n>
        ensures { result ≡ [] }
    {
        NameSet {
            keys: BTreeSet::new(alloc),
        }
    }

    /// Puts a name in, and tells whether it is new. Where memory runs out, the set stays as it was.
    pub fn insert(&mut self, space: &'n [u8], local: &'n [u8]) -> Result<bool, Memory>
        ensures added { IfOk result (λ is_new. MatchBool is_new (Contains self.old (named space.now local.now) → ⊥) (Contains self.old (named space.now local.now))) }
        ensures holds { OnOk result ((n : Name) → Contains self.new n ↔ (Contains self.old n ⊎ (n ≡ named space.now local.now))) }
        ensures err { OnErr result (self.new ≡ self.old) }
    {
        let is_new = self.keys.insert((local, space))?;
        Ok(is_new)
    }
}

/// What has a name.
pub trait Named {
    ghost name: { Self → Name };

    fn name(&self) -> &Name<'_>
        ensures { result.now ≡ name self.now };
}

/// Whether no two of the items have the same name. The time grows as n log n with their number.
pub fn names_differ<T: Named>(alloc: Global, items: &[T]) -> Result<bool, Memory>
    ensures { IfOk result (λ differ. IsTrue differ ↔ AllPairs (λ x y. T.name x ≢ T.name y) items.now) }
{
    let mut seen = NameSet::new(alloc);
    for item in items {
        let name = item.name();
        if !seen.insert(name.space.bytes(), name.local.bytes())? {
            return Ok(false);
        }
    }
    Ok(true)
}
