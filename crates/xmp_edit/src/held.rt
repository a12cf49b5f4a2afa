//! A value while edits are made, and what an edit of the whole of it makes of it. The items of an array
//! stand in a queue, and fields and qualifiers are found through maps once they are edited often.
ghost use Rattle.std.specs.Prelude.{◌≡◌, Some, IfOk};
ghost use Rattle.xmp_values.specs.Stops.{Gives, rule_of};
ghost use Rattle.xmp_edit.specs.Actions.{set_leaf, make_array, make_struct, in_array, appended, inserted, set_lang, change_of};
ghost use Rattle.xmp_edit.specs.Properties.{shape_of, whole, wholes};

use crate::action::Action;
use crate::changing::{same_kind, simple};
use crate::held_members::HeldMembers;
use crate::queues::ItemQueue;
use std::alloc::Global;
use xmp_tree::{Kind, Shape, Value, copy_text};
use xmp_values::{Memory, Rule, RuleStop, Text};

/// A shape, as those of a tree.
#[derive(Drop)]
pub enum HeldShape<'p> {
    Simple(Text<'p>),
    Uri(Text<'p>),
    Struct(HeldMembers<'p>),
    Array(Kind, ItemQueue<'p>),
}

/// A value.
#[derive(Drop)]
pub struct Held<'p> {
    pub shape: HeldShape<'p>,
    pub quals: HeldMembers<'p>,
}

impl<'p> Held<'p> {
    /// The value of a tree, of which nothing is moved.
    pub fn of(value: Value<'p>) -> Held<'p>
        ensures { whole result ≡ value.entry }
    {
        let Value { shape, quals } = value;
        let shape = match shape {
            Shape::Simple(text) => HeldShape::Simple(text),
            Shape::Uri(uri) => HeldShape::Uri(uri),
            Shape::Struct(fields) => HeldShape::Struct(HeldMembers::of(fields)),
            Shape::Array(kind, items) => HeldShape::Array(kind, ItemQueue::of(items)),
        };
        let quals = HeldMembers::of(quals);
        Held { shape, quals }
    }

    /// The value as a tree has it.
    pub fn into_value(self, alloc: Global) -> Result<Value<'p>, Memory>
        ensures { IfOk result (λ v. v ≡ whole self.entry) }
    {
        let Held { shape, quals } = self;
        let shape = match shape {
            HeldShape::Simple(text) => Shape::Simple(text),
            HeldShape::Uri(uri) => Shape::Uri(uri),
            HeldShape::Struct(fields) => Shape::Struct(fields.into_members(alloc)?),
            HeldShape::Array(kind, items) => Shape::Array(kind, items.into_items()),
        };
        let quals = quals.into_members(alloc)?;
        Ok(Value { shape, quals })
    }

    /// What an action makes of the value, if one is to stay.
    pub fn changed(self, alloc: Global, action: &Action) -> Result<Option<Held<'p>>, RuleStop>
        ensures { Gives rule_of (wholes result) (change_of action.now (Some (whole self.entry))) }
    {
        match action {
            Action::SetText(text) => {
                let shape = HeldShape::Simple(copy_text(alloc, text)?);
                set_leaf(shape, self)
            }
            Action::SetUri(uri) => {
                let shape = HeldShape::Uri(copy_text(alloc, uri)?);
                set_leaf(shape, self)
            }
            Action::Delete => Ok(None),
            Action::MakeArray(kind) => make_array(*kind, self),
            Action::MakeStruct => make_struct(self),
            Action::Append(text) => append(alloc, text, self),
            Action::Insert(at, text) => insert(alloc, *at, text, self),
            Action::SetLang(tag, text) => set_lang(alloc, tag, text, self),
        }
    }
}

/// A text or a URI in the place of one, whose qualifiers it keeps.
fn set_leaf<'p>(new: HeldShape<'p>, held: Held<'p>) -> Result<Option<Held<'p>>, RuleStop>
    ensures { Gives rule_of (wholes result) (set_leaf (shape_of new.entry) (Some (whole held.entry))) }
{
    let Held { shape, quals } = held;
    match shape {
        HeldShape::Simple(_) => Ok(Some(Held { shape: new, quals })),
        HeldShape::Uri(_) => Ok(Some(Held { shape: new, quals })),
        _ => Err(RuleStop::Fault(Rule::WrongShape)),
    }
}

/// An array of the kind stays.
fn make_array<'p>(kind: Kind, held: Held<'p>) -> Result<Option<Held<'p>>, RuleStop>
    ensures { Gives rule_of (wholes result) (make_array kind (Some (whole held.entry))) }
{
    let Held { shape, quals } = held;
    match shape {
        HeldShape::Array(old, items) => {
            if same_kind(kind, old) {
                let shape = HeldShape::Array(old, items);
                Ok(Some(Held { shape, quals }))
            } else {
                Err(RuleStop::Fault(Rule::WrongShape))
            }
        }
        _ => Err(RuleStop::Fault(Rule::WrongShape)),
    }
}

/// A structure stays.
fn make_struct<'p>(held: Held<'p>) -> Result<Option<Held<'p>>, RuleStop>
    ensures { Gives rule_of (wholes result) (make_struct (Some (whole held.entry))) }
{
    let Held { shape, quals } = held;
    match shape {
        HeldShape::Struct(fields) => {
            let shape = HeldShape::Struct(fields);
            Ok(Some(Held { shape, quals }))
        }
        _ => Err(RuleStop::Fault(Rule::WrongShape)),
    }
}

/// An array with a text at its end.
fn append<'p>(alloc: Global, text: &Text<'_>, held: Held<'p>) -> Result<Option<Held<'p>>, RuleStop>
    ensures { Gives rule_of (wholes result) (in_array (appended text.now) (Some (whole held.entry))) }
{
    let Held { shape, quals } = held;
    match shape {
        HeldShape::Array(kind, items) => {
            let mut items = items;
            items.push(simple(alloc, copy_text(alloc, text)?))?;
            let shape = HeldShape::Array(kind, items);
            Ok(Some(Held { shape, quals }))
        }
        _ => Err(RuleStop::Fault(Rule::WrongShape)),
    }
}

/// Items with a text before the one at a place, or at the end.
fn inserted<'p>(
    alloc: Global,
    at: usize,
    text: &Text<'_>,
    items: ItemQueue<'p>,
) -> Result<ItemQueue<'p>, RuleStop>
    ensures { Gives rule_of result (inserted at text.now items.entry) }
{
    if at > items.len() {
        return Err(RuleStop::Fault(Rule::OutOfArray));
    }
    let mut items = items;
    items.insert(at, simple(alloc, copy_text(alloc, text)?))?;
    Ok(items)
}

/// An array with a text before the item at a place, or at the end.
fn insert<'p>(
    alloc: Global,
    at: usize,
    text: &Text<'_>,
    held: Held<'p>,
) -> Result<Option<Held<'p>>, RuleStop>
    ensures { Gives rule_of (wholes result) (in_array (inserted at text.now) (Some (whole held.entry))) }
{
    let Held { shape, quals } = held;
    match shape {
        HeldShape::Array(kind, items) => {
            let items = inserted(alloc, at, text, items)?;
            let shape = HeldShape::Array(kind, items);
            Ok(Some(Held { shape, quals }))
        }
        _ => Err(RuleStop::Fault(Rule::WrongShape)),
    }
}

/// An array of alternatives with a text of a language.
fn set_lang<'p>(
    alloc: Global,
    tag: &Text<'_>,
    text: &Text<'_>,
    held: Held<'p>,
) -> Result<Option<Held<'p>>, RuleStop>
    ensures { Gives rule_of (wholes result) (set_lang tag.now text.now (Some (whole held.entry))) }
{
    let Held { shape, quals } = held;
    match shape {
        HeldShape::Array(kind, items) => {
            if !same_kind(kind, Kind::Alt) {
                return Err(RuleStop::Fault(Rule::WrongShape));
            }
            let items = items.said(alloc, tag, text)?;
            let shape = HeldShape::Array(Kind::Alt, items);
            Ok(Some(Held { shape, quals }))
        }
        _ => Err(RuleStop::Fault(Rule::WrongShape)),
    }
}
