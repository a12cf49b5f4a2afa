//! The changes that edits make at their places.
ghost use Rattle.std.specs.Prelude.{◌≡◌, None, IfOk, slice_get};
ghost use Rattle.xmp_values.specs.Stops.{Gives, rule_of};
ghost use Rattle.xmp_tree.specs.Parts.{simple};
ghost use Rattle.xmp_tree.specs.Wf.{lang_name};
ghost use Rattle.xmp_tree.specs.Places.{tag_place};
ghost use Rattle.xmp_tree.specs.declared.nested.Shape.{Simple};
ghost use Rattle.xmp_edit.specs.Edits.{item_at};
ghost use Rattle.xmp_edit.specs.Actions.{set_leaf, taken_out, same_kind, make_array, make_struct, in_array, appended, inserted, spoken, is_default, said, set_lang, change_of};

use crate::action::Action;
use std::alloc::Global;
use xmp_tree::{
    Items, Kind, Member, Members, Shape, Value, copy_text, refill_item, tag_place, take_item,
};
use xmp_values::{Memory, Name, Rule, RuleStop, Text};

/// A text or a URI in the place of one, whose qualifiers it keeps, or in a missing place.
fn set_leaf<'p>(
    alloc: Global,
    new: Shape<'p>,
    place: Option<Value<'p>>,
) -> Result<Option<Value<'p>>, RuleStop>
    ensures { Gives rule_of result (set_leaf new.entry place.entry) }
{
    match place {
        None => {
            let quals = Members::new(alloc);
            Ok(Some(Value { shape: new, quals }))
        }
        Some(Value { shape, quals }) => match shape {
            Shape::Simple(_) => Ok(Some(Value { shape: new, quals })),
            Shape::Uri(_) => Ok(Some(Value { shape: new, quals })),
            Shape::Struct(_) => Err(RuleStop::Fault(Rule::WrongShape)),
            Shape::Array(_, _) => Err(RuleStop::Fault(Rule::WrongShape)),
        },
    }
}

/// Nothing in the place of a value.
fn taken_out<'p>(place: Option<Value<'p>>) -> Result<Option<Value<'p>>, RuleStop>
    ensures { Gives rule_of result (taken_out place.entry) }
{
    match place {
        None => Err(RuleStop::Fault(Rule::NoSuchPlace)),
        Some(_) => Ok(None),
    }
}

/// Whether two kinds are one.
pub fn same_kind(a: Kind, b: Kind) -> bool
    ensures { result ≡ same_kind a b }
{
    match (a, b) {
        (Kind::Bag, Kind::Bag) => true,
        (Kind::Seq, Kind::Seq) => true,
        (Kind::Alt, Kind::Alt) => true,
        _ => false,
    }
}

/// An empty array in a missing place; one of the kind stays.
fn make_array<'p>(
    alloc: Global,
    kind: Kind,
    place: Option<Value<'p>>,
) -> Result<Option<Value<'p>>, RuleStop>
    ensures { Gives rule_of result (make_array kind place.entry) }
{
    match place {
        None => {
            let shape = Shape::Array(kind, Items::new(alloc));
            let quals = Members::new(alloc);
            Ok(Some(Value { shape, quals }))
        }
        Some(Value { shape, quals }) => match shape {
            Shape::Array(old, items) => {
                if same_kind(kind, old) {
                    let shape = Shape::Array(old, items);
                    Ok(Some(Value { shape, quals }))
                } else {
                    Err(RuleStop::Fault(Rule::WrongShape))
                }
            }
            _ => Err(RuleStop::Fault(Rule::WrongShape)),
        },
    }
}

/// An empty structure in a missing place; one that is there stays.
fn make_struct<'p>(alloc: Global, place: Option<Value<'p>>) -> Result<Option<Value<'p>>, RuleStop>
    ensures { Gives rule_of result (make_struct place.entry) }
{
    match place {
        None => {
            let shape = Shape::Struct(Members::new(alloc));
            let quals = Members::new(alloc);
            Ok(Some(Value { shape, quals }))
        }
        Some(Value { shape, quals }) => match shape {
            Shape::Struct(fields) => {
                let shape = Shape::Struct(fields);
                Ok(Some(Value { shape, quals }))
            }
            _ => Err(RuleStop::Fault(Rule::WrongShape)),
        },
    }
}

/// A text without qualifiers.
pub fn simple<'p>(alloc: Global, text: Text<'p>) -> Value<'p>
    ensures { result ≡ simple text.entry }
{
    Value {
        shape: Shape::Simple(text),
        quals: Members::new(alloc),
    }
}

/// An array with a text at its end.
fn append<'p>(
    alloc: Global,
    text: &Text<'_>,
    place: Option<Value<'p>>,
) -> Result<Option<Value<'p>>, RuleStop>
    ensures { Gives rule_of result (in_array (appended text.now) place.entry) }
{
    match place {
        None => Err(RuleStop::Fault(Rule::NoSuchPlace)),
        Some(Value { shape, quals }) => match shape {
            Shape::Array(kind, items) => {
                let mut items = items;
                items.push(simple(alloc, copy_text(alloc, text)?))?;
                let shape = Shape::Array(kind, items);
                Ok(Some(Value { shape, quals }))
            }
            _ => Err(RuleStop::Fault(Rule::WrongShape)),
        },
    }
}

/// Items with a text before the one at a place, or at the end.
fn inserted<'p>(
    alloc: Global,
    at: usize,
    text: &Text<'_>,
    items: Items<'p>,
) -> Result<Items<'p>, RuleStop>
    ensures { Gives rule_of result (inserted at text.now items.entry) }
{
    if at > items.len() {
        return Err(RuleStop::Fault(Rule::OutOfArray));
    }
    let mut items = items;
    items.insert(at, simple(alloc, copy_text(alloc, text)?))?;
    Ok(items)
}

/// An array with a text before the item at a place, or at the end.
fn insert<'p>(
    alloc: Global,
    at: usize,
    text: &Text<'_>,
    place: Option<Value<'p>>,
) -> Result<Option<Value<'p>>, RuleStop>
    ensures { Gives rule_of result (in_array (inserted at text.now) place.entry) }
{
    match place {
        None => Err(RuleStop::Fault(Rule::NoSuchPlace)),
        Some(Value { shape, quals }) => match shape {
            Shape::Array(kind, items) => {
                let items = inserted(alloc, at, text, items)?;
                let shape = Shape::Array(kind, items);
                Ok(Some(Value { shape, quals }))
            }
            _ => Err(RuleStop::Fault(Rule::WrongShape)),
        },
    }
}

/// The name `xml:lang`.
#[tactic(auto, unfolding(xmp_tree::specs::Wf::lang_name, xmp_values::specs::Spaces::xml_space))]
fn lang_name() -> Name<'static>
    ensures { result ≡ lang_name }
{
    Name {
        space: Text::raw(b"http://www.w3.org/XML/1998/namespace".as_slice()),
        local: Text::raw(b"lang".as_slice()),
    }
}

/// A text of a language.
fn spoken<'p>(alloc: Global, tag: &Text<'_>, text: &Text<'_>) -> Result<Value<'p>, Memory>
    ensures { IfOk result (λ v. v ≡ spoken tag.now text.now) }
{
    let value = simple(alloc, copy_text(alloc, tag)?);
    let mut quals = Members::new(alloc);
    quals.push(Member {
        name: lang_name(),
        value,
    })?;
    let shape = Shape::Simple(copy_text(alloc, text)?);
    Ok(Value { shape, quals })
}

/// Whether the language is that of the default.
pub fn is_default(tag: &Text<'_>) -> bool
    ensures { result ≡ is_default tag.now }
{
    tag.bytes().eq_ignore_ascii_case(b"x-default")
}

/// Items with one more of a language, that of the default in front.
pub fn one_more_said<'p>(
    alloc: Global,
    tag: &Text<'_>,
    text: &Text<'_>,
    items: Items<'p>,
) -> Result<Items<'p>, RuleStop>
    ensures { Gives rule_of result (said tag.now text.now items.entry None) }
{
    let mut items = items;
    let value = spoken(alloc, tag, text)?;
    if is_default(tag) {
        items.insert(0, value)?;
    } else {
        items.push(value)?;
    }
    Ok(items)
}

/// Items whose one at a place becomes a text.
pub fn item_said<'p>(
    alloc: Global,
    text: &Text<'_>,
    items: Items<'p>,
    at: usize,
) -> Result<Items<'p>, RuleStop>
    ensures { Gives rule_of result (item_at (set_leaf (Simple text.now)) items.entry at (slice_get items.entry at)) }
{
    let mut items = items;
    match take_item(alloc, &mut items, at) {
        None => Err(RuleStop::Fault(Rule::OutOfArray)),
        Some(old) => {
            let shape = Shape::Simple(copy_text(alloc, text)?);
            let given = set_leaf(alloc, shape, Some(old))?;
            Ok(refill_item(items, at, given))
        }
    }
}

/// Items whose one at the place becomes a text, or with one more of the language where there is none.
pub fn said_at<'p>(
    alloc: Global,
    tag: &Text<'_>,
    text: &Text<'_>,
    items: Items<'p>,
    place: Option<usize>,
) -> Result<Items<'p>, RuleStop>
    ensures { Gives rule_of result (said tag.now text.now items.entry place) }
{
    match place {
        Some(at) => item_said(alloc, text, items, at),
        None => one_more_said(alloc, tag, text, items),
    }
}

/// Items whose one of a language becomes a text, or with one more.
fn said<'p>(
    alloc: Global,
    tag: &Text<'_>,
    text: &Text<'_>,
    items: Items<'p>,
) -> Result<Items<'p>, RuleStop>
    ensures { Gives rule_of result (said tag.now text.now items.entry (tag_place tag.now items.entry)) }
{
    let place = tag_place(items.as_slice(), tag.bytes());
    said_at(alloc, tag, text, items, place)
}

/// An array of alternatives with a text of a language, or such a one in a missing place.
fn set_lang<'p>(
    alloc: Global,
    tag: &Text<'_>,
    text: &Text<'_>,
    place: Option<Value<'p>>,
) -> Result<Option<Value<'p>>, RuleStop>
    ensures { Gives rule_of result (set_lang tag.now text.now place.entry) }
{
    match place {
        None => {
            let mut items = Items::new(alloc);
            items.push(spoken(alloc, tag, text)?)?;
            let shape = Shape::Array(Kind::Alt, items);
            let quals = Members::new(alloc);
            Ok(Some(Value { shape, quals }))
        }
        Some(Value { shape, quals }) => match shape {
            Shape::Array(kind, items) => {
                if !same_kind(kind, Kind::Alt) {
                    return Err(RuleStop::Fault(Rule::WrongShape));
                }
                let items = said(alloc, tag, text, items)?;
                let shape = Shape::Array(Kind::Alt, items);
                Ok(Some(Value { shape, quals }))
            }
            _ => Err(RuleStop::Fault(Rule::WrongShape)),
        },
    }
}

/// What an action makes of what stands at its place.
pub fn changed<'p>(
    alloc: Global,
    action: &Action,
    place: Option<Value<'p>>,
) -> Result<Option<Value<'p>>, RuleStop>
    ensures { Gives rule_of result (change_of action.now place.entry) }
{
    match action {
        Action::SetText(text) => {
            let shape = Shape::Simple(copy_text(alloc, text)?);
            set_leaf(alloc, shape, place)
        }
        Action::SetUri(uri) => {
            let shape = Shape::Uri(copy_text(alloc, uri)?);
            set_leaf(alloc, shape, place)
        }
        Action::Delete => taken_out(place),
        Action::MakeArray(kind) => make_array(alloc, *kind, place),
        Action::MakeStruct => make_struct(alloc, place),
        Action::Append(text) => append(alloc, text, place),
        Action::Insert(at, text) => insert(alloc, *at, text, place),
        Action::SetLang(tag, text) => set_lang(alloc, tag, text, place),
    }
}
