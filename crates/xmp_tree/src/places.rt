//! Places in lists of members and items, by name and by language, and values moved out and in there.
ghost use Rattle.std.specs.Prelude.{◌≡◌, ◌<◌, length, slice_get, slice_set, [], IfSome, OnOk};
ghost use Rattle.std.specs.Option.{option_map, option_copied};
ghost use Rattle.xmp_tree.specs.Wf.{name_of, value_of, lang_name};
ghost use Rattle.xmp_tree.specs.Parts.{member, simple};
ghost use Rattle.xmp_tree.specs.Places.{same_name, place_of, value_named, text_of, lang_in, lang_of, is_tag, tag_place};
ghost use Rattle.xmp_tree.specs.Items.{joined, member_put, item_put};

use crate::naming::is_lang;
use crate::nested::{Items, Member, Members, Shape, Value};
use std::alloc::Global;
use std::mem;
use xmp_values::{Memory, Name, Text};

/// Whether the member has the name.
#[tactic(auto, unfolding(crate::specs::Places::same_name))]
fn has_name(member: &Member<'_>, name: &Name<'_>) -> bool
    ensures { result ≡ same_name (name_of member.now) name.now }
{
    // The local part first: it alone tells most names apart.
    member.name.local.bytes() == name.local.bytes()
        && member.name.space.bytes() == name.space.bytes()
}

/// The place of the first member of a name.
pub fn place_of(members: &[Member<'_>], name: &Name<'_>) -> Option<usize>
    ensures { result ≡ place_of name.now members.now }
{
    members.iter().position(|member| has_name(member, name))
}

/// The value of the first member of a name.
pub fn value_named<'t, 'p>(members: &'t [Member<'p>], name: &Name<'_>) -> Option<&'t Value<'p>>
    ensures { option_copied result ≡ value_named name.now members.now }
{
    for member in members {
        if has_name(member, name) {
            return Some(&member.value);
        }
    }
    None
}

/// The text of a simple value.
pub fn text_of<'v>(value: &'v Value<'_>) -> Option<&'v [u8]>
    ensures { option_copied result ≡ text_of value.now }
{
    match &value.shape {
        Shape::Simple(text) => Some(text.bytes()),
        _ => None,
    }
}

/// Whether the name is `xml:lang`, which stands first among qualifiers.
#[tactic(auto, unfolding(crate::specs::Places::same_name, crate::specs::Wf::lang_name))]
pub fn is_front(name: &Name<'_>) -> bool
    ensures { result ≡ same_name name.now lang_name }
{
    is_lang(name)
}

/// The text of the first member that is named `xml:lang`.
fn lang_in<'v>(members: &'v [Member<'_>]) -> Option<&'v [u8]>
    ensures { option_copied result ≡ lang_in members.now }
{
    for member in members {
        if is_front(&member.name) {
            return text_of(&member.value);
        }
    }
    None
}

/// The language of a value: the text of its qualifier `xml:lang`.
pub fn lang_of<'v>(value: &'v Value<'_>) -> Option<&'v [u8]>
    ensures { option_copied result ≡ lang_of value.now }
{
    lang_in(value.quals.as_slice())
}

/// Whether the value's language is the tag, ASCII case aside.
pub fn has_tag(value: &Value<'_>, tag: &[u8]) -> bool
    ensures { result ≡ is_tag tag.now (lang_of value.now) }
{
    match lang_of(value) {
        None => false,
        Some(lang) => lang.eq_ignore_ascii_case(tag),
    }
}

/// The place of the first item of a language, ASCII case aside.
pub fn tag_place(items: &[Value<'_>], tag: &[u8]) -> Option<usize>
    ensures { result ≡ tag_place tag.now items.now }
{
    items.iter().position(|item| has_tag(item, tag))
}

/// A value that takes no memory, to stand for one that is away.
fn nothing<'p>(alloc: Global) -> Value<'p>
    ensures { result ≡ simple [] }
{
    Value {
        shape: Shape::Simple(Text::raw(b"".as_slice())),
        quals: Members::new(alloc),
    }
}

/// Moves the value of a member out. An empty text stands in its place until `refill`.
pub fn take_value<'p>(alloc: Global, members: &mut Members<'p>, at: usize) -> Option<Value<'p>>
    ensures value { result ≡ option_map value_of (slice_get members.old at) }
    ensures rest { IfSome (slice_get members.old at) (λ m. members.new ≡ slice_set members.old at (member (name_of m) (simple []))) }
{
    match members.get_mut(at) {
        Some(member) => Some(mem::replace(&mut member.value, nothing(alloc))),
        None => None,
    }
}

/// Moves an item out. An empty text stands in its place until `refill_item`.
pub fn take_item<'p>(alloc: Global, items: &mut Items<'p>, at: usize) -> Option<Value<'p>>
    ensures value { result ≡ slice_get items.old at }
    ensures rest { IfSome (slice_get items.old at) (λ v. items.new ≡ slice_set items.old at (simple [])) }
{
    match items.get_mut(at) {
        Some(item) => Some(mem::replace(item, nothing(alloc))),
        None => None,
    }
}

/// Moves a value into a member.
fn put_value<'p>(members: &mut Members<'p>, at: usize, value: Value<'p>)
    ensures { IfSome (slice_get members.old at) (λ m. members.new ≡ slice_set members.old at (member (name_of m) value.entry)) }
{
    if let Some(member) = members.get_mut(at) {
        member.value = value;
    }
}

/// Moves an item in.
fn put_item<'p>(items: &mut Items<'p>, at: usize, value: Value<'p>)
    ensures { IfSome (slice_get items.old at) (λ v. items.new ≡ slice_set items.old at value.entry) }
{
    if let Some(item) = items.get_mut(at) {
        *item = value;
    }
}

/// Moves what is given into a member, or takes the member out.
pub fn refill<'p>(members: Members<'p>, at: usize, given: Option<Value<'p>>) -> Members<'p>
    ensures { IfSome (slice_get members.entry at) (λ m. result ≡ member_put members.entry at m given.entry) }
{
    let mut members = members;
    match given {
        Some(value) => put_value(&mut members, at, value),
        None => {
            if at < members.len() {
                members.remove(at);
            }
        }
    }
    members
}

/// Moves what is given into an item, or takes the item out.
pub fn refill_item<'p>(items: Items<'p>, at: usize, given: Option<Value<'p>>) -> Items<'p>
    ensures { IfSome (slice_get items.entry at) (λ v. result ≡ item_put items.entry at given.entry) }
{
    let mut items = items;
    match given {
        Some(value) => put_item(&mut items, at, value),
        None => {
            if at < items.len() {
                items.remove(at);
            }
        }
    }
    items
}

/// Puts a member in front of the others, or after them.
pub fn join<'p>(front: bool, members: &mut Members<'p>, member: Member<'p>) -> Result<(), Memory>
    ensures { OnOk result (members.new ≡ joined front members.old member.entry) }
{
    if front {
        members.insert(0, member)
    } else {
        members.push(member)
    }
}
