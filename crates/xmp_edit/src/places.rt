//! The way to a place, by moves: down the steps, and back.
ghost use Rattle.std.specs.Prelude.{◌≡◌, ◌&&◌, slice_get, None};
ghost use Rattle.xmp_values.specs.Stops.{Gives, rule_of};
ghost use Rattle.xmp_paths.specs.Paths.{is_end};
ghost use Rattle.xmp_edit.specs.Actions.{change_of, makes};
ghost use Rattle.xmp_edit.specs.Edits.{ok_map, at_place, stepped, in_members, member_at, with_member, in_items, in_tagged, item_at, with_item};

use crate::action::{Action, makes};
use crate::changing::changed;
use std::alloc::Global;
use xmp_paths::Step;
use xmp_tree::{
    Items, Member, Members, Shape, Value, copy_name, is_front, join, place_of, refill, refill_item,
    tag_place, take_item, take_value,
};
use xmp_values::{Name, Rule, RuleStop, Text};

/// The value, if one is to stand there, after an edit at the end of steps.
#[cycle(edit)]
pub fn at_place<'p>(
    alloc: Global,
    steps: &[Step],
    action: &Action,
    place: Option<Value<'p>>,
) -> Result<Option<Value<'p>>, RuleStop>
    ensures { Gives rule_of result (at_place steps.now (change_of action.now) (makes action.now) place.entry) }
{
    match steps {
        [] => changed(alloc, action, place),
        [step, rest @ ..] => match place {
            Some(value) => Ok(Some(stepped(alloc, step, rest, action, value)?)),
            None => Err(RuleStop::Fault(Rule::NoSuchPlace)),
        },
    }
}

/// Whether no step is left.
pub fn is_end(steps: &[Step]) -> bool
    ensures { result ≡ is_end steps.now }
{
    match steps {
        [] => true,
        _ => false,
    }
}

/// A value after an edit after a step.
#[cycle(edit)]
fn stepped<'p>(
    alloc: Global,
    step: &Step,
    rest: &[Step],
    action: &Action,
    value: Value<'p>,
) -> Result<Value<'p>, RuleStop>
    ensures { Gives rule_of result (stepped (at_place rest.now (change_of action.now) (makes action.now)) (makes action.now && is_end rest.now) step.now value.entry) }
{
    let Value { shape, quals } = value;
    match step {
        Step::Field(name) => match shape {
            Shape::Struct(fields) => {
                let fields = in_members(alloc, rest, action, false, name, fields)?;
                let shape = Shape::Struct(fields);
                Ok(Value { shape, quals })
            }
            _ => Err(RuleStop::Fault(Rule::WrongShape)),
        },
        Step::Qualifier(name) => {
            let quals = in_members(alloc, rest, action, is_front(name), name, quals)?;
            Ok(Value { shape, quals })
        }
        Step::Item(at) => match shape {
            Shape::Array(kind, items) => {
                let items = in_items(alloc, rest, action, *at, items)?;
                let shape = Shape::Array(kind, items);
                Ok(Value { shape, quals })
            }
            _ => Err(RuleStop::Fault(Rule::WrongShape)),
        },
        Step::Tag(tag) => match shape {
            Shape::Array(kind, items) => {
                let items = in_tagged(alloc, rest, action, tag, items)?;
                let shape = Shape::Array(kind, items);
                Ok(Value { shape, quals })
            }
            _ => Err(RuleStop::Fault(Rule::WrongShape)),
        },
    }
}

/// Members after an edit at a name and after it.
#[cycle(edit)]
pub fn in_members<'p>(
    alloc: Global,
    rest: &[Step],
    action: &Action,
    front: bool,
    name: &Name<'_>,
    members: Members<'p>,
) -> Result<Members<'p>, RuleStop>
    ensures { Gives rule_of result (in_members (at_place rest.now (change_of action.now) (makes action.now)) (makes action.now && is_end rest.now) front name.now members.entry) }
{
    match place_of(members.as_slice(), name) {
        Some(at) => member_at(alloc, rest, action, members, at),
        None => {
            if !makes(action) || !is_end(rest) {
                return Err(RuleStop::Fault(Rule::NoSuchPlace));
            }
            member_made(alloc, action, front, name, members)
        }
    }
}

/// Members after an edit after the member at a place.
#[cycle(edit)]
fn member_at<'p>(
    alloc: Global,
    rest: &[Step],
    action: &Action,
    members: Members<'p>,
    at: usize,
) -> Result<Members<'p>, RuleStop>
    ensures { Gives rule_of result (member_at (at_place rest.now (change_of action.now) (makes action.now)) members.entry at (slice_get members.entry at)) }
{
    let mut members = members;
    match take_value(alloc, &mut members, at) {
        None => Err(RuleStop::Fault(Rule::NoSuchPlace)),
        Some(old) => {
            let given = at_place(alloc, rest, action, Some(old))?;
            Ok(refill(members, at, given))
        }
    }
}

/// Members with one more, if the edit gives one.
fn member_made<'p>(
    alloc: Global,
    action: &Action,
    front: bool,
    name: &Name<'_>,
    members: Members<'p>,
) -> Result<Members<'p>, RuleStop>
    ensures { Gives rule_of result (ok_map (with_member front name.now members.entry) (change_of action.now None)) }
{
    let mut members = members;
    match changed(alloc, action, None)? {
        Some(value) => {
            let name = copy_name(alloc, name)?;
            join(front, &mut members, Member { name, value })?;
            Ok(members)
        }
        None => Ok(members),
    }
}

/// Items after an edit at a place and after it.
#[cycle(edit)]
fn in_items<'p>(
    alloc: Global,
    rest: &[Step],
    action: &Action,
    at: usize,
    items: Items<'p>,
) -> Result<Items<'p>, RuleStop>
    ensures { Gives rule_of result (in_items (at_place rest.now (change_of action.now) (makes action.now)) (makes action.now && is_end rest.now) at items.entry) }
{
    if at < items.len() {
        return item_at(alloc, rest, action, items, at);
    }
    if !makes(action) || !is_end(rest) || at != items.len() {
        return Err(RuleStop::Fault(Rule::OutOfArray));
    }
    item_made(alloc, action, items)
}

/// Items after an edit at the first of a language and after it.
#[cycle(edit)]
pub fn in_tagged<'p>(
    alloc: Global,
    rest: &[Step],
    action: &Action,
    tag: &Text<'_>,
    items: Items<'p>,
) -> Result<Items<'p>, RuleStop>
    ensures { Gives rule_of result (in_tagged (at_place rest.now (change_of action.now) (makes action.now)) tag.now items.entry) }
{
    match tag_place(items.as_slice(), tag.bytes()) {
        Some(at) => item_at(alloc, rest, action, items, at),
        None => Err(RuleStop::Fault(Rule::NoSuchPlace)),
    }
}

/// Items after an edit after the item at a place.
#[cycle(edit)]
fn item_at<'p>(
    alloc: Global,
    rest: &[Step],
    action: &Action,
    items: Items<'p>,
    at: usize,
) -> Result<Items<'p>, RuleStop>
    ensures { Gives rule_of result (item_at (at_place rest.now (change_of action.now) (makes action.now)) items.entry at (slice_get items.entry at)) }
{
    let mut items = items;
    match take_item(alloc, &mut items, at) {
        None => Err(RuleStop::Fault(Rule::OutOfArray)),
        Some(old) => {
            let given = at_place(alloc, rest, action, Some(old))?;
            Ok(refill_item(items, at, given))
        }
    }
}

/// Items with one more, if the edit gives one.
fn item_made<'p>(alloc: Global, action: &Action, items: Items<'p>) -> Result<Items<'p>, RuleStop>
    ensures { Gives rule_of result (ok_map (with_item items.entry) (change_of action.now None)) }
{
    let mut items = items;
    match changed(alloc, action, None)? {
        Some(value) => {
            items.push(value)?;
            Ok(items)
        }
        None => Ok(items),
    }
}
