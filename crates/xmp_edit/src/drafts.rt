//! Trees in which edits are made.
ghost use Rattle.std.specs.Prelude.{◌≡◌, IfOk};
ghost use Rattle.xmp_values.specs.Stops.{Gives, rule_of};
ghost use Rattle.xmp_edit.specs.Allowed.{IsAllowed};
ghost use Rattle.xmp_edit.specs.Scripts.{edited};

use crate::edit::Edit;
use crate::properties::Property;
use crate::slots::{Slots, in_slots, members_of, slots_of};
use std::alloc::Global;
use std::marker::Model;
use xmp_tree::Tree;
use xmp_values::{Memory, RuleStop, Text};

/// A tree whose properties are found by name through a map. An edit costs the logarithm of their
/// number, and what its path costs in the one property.
#[derive(Drop)]
pub struct Draft<'p> {
    about: Text<'p>,
    slots: Slots<Property<'p>>,
}

impl<'p> Model for Draft<'p> {
    ghost use Rattle.xmp_tree.specs.Parts.{Parts, parts_code};
    ghost use Rattle.xmp_tree.specs.Wf.{Wf};
    ghost use Rattle.xmp_edit.specs.Slots.{present, HasPlaces};

    ghost Value = { Parts };

    ghost coded = { parts_code };

    ghost view = { λ d. record { about = d.about; props = present d.slots.list } };

    ghost invariant = { λ d. Wf record { about = d.about; props = present d.slots.list } × HasPlaces d.slots.places d.slots.list };
}

impl<'p> Draft<'p> {
    /// A tree's draft. The time grows as n log n with the properties.
    pub fn of(alloc: Global, tree: Tree<'p>) -> Result<Draft<'p>, Memory>
        ensures { IfOk result (λ d. d ≡ tree.entry) }
    {
        let Tree { about, props } = tree;
        let slots = slots_of(alloc, props)?;
        Ok(Draft { about, slots })
    }

    /// The tree.
    pub fn into_tree(self, alloc: Global) -> Result<Tree<'p>, Memory>
        ensures { IfOk result (λ t. t ≡ self.entry) }
    {
        let Draft { about, slots } = self;
        let props = members_of(alloc, slots)?;
        Ok(Tree { about, props })
    }

    /// The draft of the tree that an edit makes.
    pub fn edited(self, alloc: Global, edit: &Edit) -> Result<Draft<'p>, RuleStop>
        requires { IsAllowed edit.now }
        ensures { Gives rule_of result (edited edit.now self.entry) }
    {
        let Draft { about, slots } = self;
        let slots = in_slots(alloc, &edit.path, &edit.action, slots)?;
        Ok(Draft { about, slots })
    }
}
