//! Properties while edits are made, and the way of an edit from a property's value: it is that of
//! `places`, over a value that is held for many edits.
ghost use Rattle.std.specs.Prelude.{◌≡◌, ◌&&◌, slice_get, Some, None, option_map, IfOk};
ghost use Rattle.xmp_values.specs.Stops.{Gives, rule_of};
ghost use Rattle.xmp_tree.specs.Parts.{member};
ghost use Rattle.xmp_tree.specs.Wf.{name_of, value_of};
ghost use Rattle.xmp_paths.specs.Paths.{is_end};
ghost use Rattle.xmp_edit.specs.Actions.{change_of, makes};
ghost use Rattle.xmp_edit.specs.Edits.{ok_map, at_place, stepped, in_items, in_tagged, item_at, with_item};
ghost use Rattle.xmp_edit.specs.Properties.{whole, whole_of, wholes};

use crate::action::{Action, makes};
use crate::changing::changed;
use crate::held::{Held, HeldShape};
use crate::places::{at_place, in_tagged, is_end};
use crate::queues::ItemQueue;
use std::alloc::Global;
use std::marker::Model;
use xmp_paths::Step;
use xmp_tree::{Member, is_front};
use xmp_values::{Memory, Name, Rule, RuleStop};

/// A property. To contracts it is the member of a tree that it stands for.
#[derive(Drop)]
pub struct Property<'p> {
    name: Name<'p>,
    held: Held<'p>,
}

impl<'p> Model for Property<'p> {
    ghost use Rattle.xmp_tree.specs.declared.nested.Member.{Member};
    ghost use Rattle.xmp_edit.specs.Codes.{property_code};

    ghost Value = { Member };

    ghost coded = { property_code };

    ghost use Rattle.xmp_tree.specs.Parts.{member};
    ghost use Rattle.xmp_edit.specs.Properties.{whole};

    ghost view = { λ p. member p.name (whole p.held) };
}

impl<'p> Property<'p> {
    /// The property of a tree.
    pub fn of(member: Member<'p>) -> Property<'p>
        ensures { result ≡ member.entry }
    {
        let Member { name, value } = member;
        let held = Held::of(value);
        Property { name, held }
    }

    /// The member of a tree that it stands for.
    pub fn into_member(self, alloc: Global) -> Result<Member<'p>, Memory>
        ensures { IfOk result (λ m. m ≡ self.entry) }
    {
        let Property { name, held } = self;
        let value = held.into_value(alloc)?;
        Ok(Member { name, value })
    }

    /// The property after an edit at steps from its value, unless the edit takes it out.
    pub fn edited(
        self,
        alloc: Global,
        steps: &[Step],
        action: &Action,
    ) -> Result<Option<Property<'p>>, RuleStop>
        ensures { Gives rule_of result (ok_map (option_map (member (name_of self.entry))) (at_place steps.now (change_of action.now) (makes action.now) (Some (value_of self.entry)))) }
    {
        let Property { name, held } = self;
        match in_held(alloc, steps, action, held)? {
            Some(held) => Ok(Some(Property { name, held })),
            None => Ok(None),
        }
    }
}

/// A value after an edit at the end of steps.
fn in_held<'p>(
    alloc: Global,
    steps: &[Step],
    action: &Action,
    held: Held<'p>,
) -> Result<Option<Held<'p>>, RuleStop>
    ensures { Gives rule_of (wholes result) (at_place steps.now (change_of action.now) (makes action.now) (Some (whole held.entry))) }
{
    match steps {
        [] => held.changed(alloc, action),
        [step, rest @ ..] => Ok(Some(stepped(alloc, step, rest, action, held)?)),
    }
}

/// A value after an edit after a step.
fn stepped<'p>(
    alloc: Global,
    step: &Step,
    rest: &[Step],
    action: &Action,
    held: Held<'p>,
) -> Result<Held<'p>, RuleStop>
    ensures { Gives rule_of (whole_of result) (stepped (at_place rest.now (change_of action.now) (makes action.now)) (makes action.now && is_end rest.now) step.now (whole held.entry)) }
{
    let Held { shape, quals } = held;
    match step {
        Step::Field(name) => match shape {
            HeldShape::Struct(fields) => {
                let fields = fields.edited(alloc, false, name, rest, action)?;
                let shape = HeldShape::Struct(fields);
                Ok(Held { shape, quals })
            }
            _ => Err(RuleStop::Fault(Rule::WrongShape)),
        },
        Step::Qualifier(name) => {
            let quals = quals.edited(alloc, is_front(name), name, rest, action)?;
            Ok(Held { shape, quals })
        }
        Step::Item(at) => match shape {
            HeldShape::Array(kind, items) => {
                let items = in_items(alloc, rest, action, *at, items)?;
                let shape = HeldShape::Array(kind, items);
                Ok(Held { shape, quals })
            }
            _ => Err(RuleStop::Fault(Rule::WrongShape)),
        },
        Step::Tag(tag) => match shape {
            HeldShape::Array(kind, items) => {
                let items = in_tagged(alloc, rest, action, tag, items.into_items())?;
                let shape = HeldShape::Array(kind, ItemQueue::of(items));
                Ok(Held { shape, quals })
            }
            _ => Err(RuleStop::Fault(Rule::WrongShape)),
        },
    }
}

/// Items after an edit at a place and after it.
fn in_items<'p>(
    alloc: Global,
    rest: &[Step],
    action: &Action,
    at: usize,
    items: ItemQueue<'p>,
) -> Result<ItemQueue<'p>, RuleStop>
    ensures { Gives rule_of result (in_items (at_place rest.now (change_of action.now) (makes action.now)) (makes action.now && is_end rest.now) at items.entry) }
{
    if at < items.len() {
        return item_at(alloc, rest, action, items, at);
    }
    if !makes(action) || !is_end(rest) || at != items.len() {
        return Err(RuleStop::Fault(Rule::OutOfArray));
    }
    item_made(alloc, action, items)
}

/// Items after an edit after the item at a place.
fn item_at<'p>(
    alloc: Global,
    rest: &[Step],
    action: &Action,
    items: ItemQueue<'p>,
    at: usize,
) -> Result<ItemQueue<'p>, RuleStop>
    ensures { Gives rule_of result (item_at (at_place rest.now (change_of action.now) (makes action.now)) items.entry at (slice_get items.entry at)) }
{
    let mut items = items;
    match items.take(alloc, at) {
        None => Err(RuleStop::Fault(Rule::OutOfArray)),
        Some(old) => {
            let given = at_place(alloc, rest, action, Some(old))?;
            Ok(items.refill(at, given))
        }
    }
}

/// Items with one more, if the edit gives one.
fn item_made<'p>(
    alloc: Global,
    action: &Action,
    items: ItemQueue<'p>,
) -> Result<ItemQueue<'p>, RuleStop>
    ensures { Gives rule_of result (ok_map (with_item items.entry) (change_of action.now None)) }
{
    let mut items = items;
    match changed(alloc, action, None)? {
        Some(value) => {
            items.push(value)?;
            Ok(items)
        }
        None => Ok(items),
    }
}
