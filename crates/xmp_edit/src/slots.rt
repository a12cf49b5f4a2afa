//! Properties in slots: a map leads from a name to its slot, and a property that is taken out leaves
//! its slot empty, so that no edit moves the others.
ghost use Rattle.std.specs.Prelude.{◌≡◌, ◌++◌, ◌∷◌, [], ◌&&◌, false, Some, None, option_to_list, IfOk, IfSome, slice_get, slice_set};
ghost use Rattle.std.specs.Option.{option_flatten};
ghost use Rattle.xmp_values.specs.Stops.{Gives, rule_of};
ghost use Rattle.xmp_tree.specs.Wf.{name_of, NamesDiffer};
ghost use Rattle.xmp_paths.specs.Paths.{is_end};
ghost use Rattle.xmp_edit.specs.Actions.{change_of, makes};
ghost use Rattle.xmp_edit.specs.Edits.{ok_map, at_place, with_member, in_props};
ghost use Rattle.xmp_edit.specs.Slots.{present, slot_of, name_at, HasPlaces, PlacesMore, slot_changed, lists, presented};

use crate::action::{Action, makes};
use crate::changing::changed;
use crate::places::is_end;
use crate::properties::Property;
use std::alloc::Global;
use std::collections::BTreeMap;
use xmp_paths::{Path, Step};
use xmp_tree::{Member, Members, copy_name};
use xmp_values::{Memory, Name, Rule, RuleStop, Sequence};

/// A name as it is looked up: its local part, which tells most names apart, and its namespace.
pub type Key = (Vec<u8>, Vec<u8>);

/// The slot of each name. It has keys of its own, since the members come and go.
pub type Places = BTreeMap<Key, usize>;

/// Members in their order, with empty slots where some were taken out.
#[derive(Drop)]
pub struct Slots<M> {
    pub list: Sequence<Option<M>>,
    pub places: BTreeMap<(Vec<u8>, Vec<u8>), usize>,
}

/// The key of a name.
pub fn key_of(alloc: Global, name: &Name<'_>) -> Result<Key, Memory>
    ensures { IfOk result (λ key. name_at key ≡ name.now) }
{
    let local = Vec::from_slice(alloc, name.local.bytes())?;
    let space = Vec::from_slice(alloc, name.space.bytes())?;
    Ok((local, space))
}

/// The places with one more name, unless it has one.
pub fn placed(places: Places, key: Key, at: usize) -> Result<Places, Memory>
    ensures { IfOk result (λ new. PlacesMore key at places new) }
{
    if places.contains_key(&key) {
        return Ok(places);
    }
    let mut places = places;
    places.insert(key, at)?;
    Ok(places)
}

/// One member more, whose key this is.
fn pushed<'p>(
    slots: Slots<Property<'p>>,
    key: Key,
    member: Member<'p>,
) -> Result<Slots<Property<'p>>, Memory>
    requires keyed { name_at key ≡ name_of member }
    requires placed { HasPlaces slots.places slots.list }
    ensures list { IfOk result (λ s. s.list ≡ slots.entry.list ++ Some member.entry ∷ []) }
    ensures placed { IfOk result (λ s. HasPlaces s.places s.list) }
{
    let Slots { list, places } = slots;
    let mut list = list;
    let places = placed(places, key, list.len())?;
    list.push(Some(Property::of(member)))?;
    Ok(Slots { list, places })
}

/// The slots of members.
pub fn slots_of<'p>(alloc: Global, members: Members<'p>) -> Result<Slots<Property<'p>>, Memory>
    ensures members { IfOk result (λ s. present s.list ≡ members.entry) }
    ensures placed { IfOk result (λ s. HasPlaces s.places s.list) }
{
    let mut slots = Slots {
        list: Sequence::new(alloc),
        places: BTreeMap::new(alloc),
    };
    for member in members.into_vec() {
        let key = key_of(alloc, &member.name)?;
        slots = pushed(slots, key, member)?;
    }
    Ok(slots)
}

/// Members with that of a slot.
fn with_slot<'p>(
    alloc: Global,
    members: Members<'p>,
    slot: Option<Property<'p>>,
) -> Result<Members<'p>, Memory>
    ensures { IfOk result (λ ms. ms ≡ members.entry ++ option_to_list slot.entry) }
{
    let mut members = members;
    match slot {
        Some(property) => {
            members.push(property.into_member(alloc)?)?;
            Ok(members)
        }
        None => Ok(members),
    }
}

/// The members that are there.
pub fn members_of<'p>(alloc: Global, slots: Slots<Property<'p>>) -> Result<Members<'p>, Memory>
    ensures { IfOk result (λ ms. ms ≡ present slots.entry.list) }
{
    let Slots {
        list,
        places: _places,
    } = slots;
    let mut members = Members::new(alloc);
    for slot in list.into_vec() {
        members = with_slot(alloc, members, slot)?;
    }
    Ok(members)
}

/// Moves the member out of a slot.
pub fn emptied<M>(list: &mut Sequence<Option<M>>, at: usize) -> Option<M>
    ensures member { result ≡ option_flatten (slice_get list.old at) }
    ensures rest { IfSome (slice_get list.old at) (λ s. list.new ≡ slice_set list.old at None) }
{
    match list.get_mut(at) {
        Some(slot) => slot.take(),
        None => None,
    }
}

/// Moves a member into a slot.
pub fn filled<M: Drop>(list: &mut Sequence<Option<M>>, at: usize, member: M)
    ensures { IfSome (slice_get list.old at) (λ s. list.new ≡ slice_set list.old at (Some member)) }
{
    if let Some(slot) = list.get_mut(at) {
        *slot = Some(member);
    }
}

/// Slots after an edit of the property in one of them.
fn slot_changed<'p>(
    alloc: Global,
    path: &Path,
    action: &Action,
    slots: Slots<Property<'p>>,
    key: &Key,
    at: usize,
) -> Result<Slots<Property<'p>>, RuleStop>
    requires here { slot_of (name_at key.now) slots.list ≡ Some at }
    requires apart { NamesDiffer (present slots.list) }
    requires placed { HasPlaces slots.places slots.list }
    ensures gives { Gives rule_of (lists result) (slot_changed (at_place path.now.steps (change_of action.now) (makes action.now)) slots.entry.list at (slice_get slots.entry.list at)) }
    ensures placed { IfOk result (λ s. HasPlaces s.places s.list) }
{
    let Slots { list, places } = slots;
    let mut list = list;
    match emptied(&mut list, at) {
        None => Err(RuleStop::Fault(Rule::NoSuchPlace)),
        Some(property) => match property.edited(alloc, path.steps(), action)? {
            Some(property) => {
                filled(&mut list, at, property);
                Ok(Slots { list, places })
            }
            None => {
                let mut places = places;
                places.remove(key);
                Ok(Slots { list, places })
            }
        },
    }
}

/// Slots with one property more, if the edit gives one.
fn slot_made<'p>(
    alloc: Global,
    name: &Name<'_>,
    action: &Action,
    slots: Slots<Property<'p>>,
    key: Key,
) -> Result<Slots<Property<'p>>, RuleStop>
    requires keyed { name_at key ≡ name.now }
    requires placed { HasPlaces slots.places slots.list }
    ensures gives { Gives rule_of (presented result) (ok_map (with_member false name.now (present slots.entry.list)) (change_of action.now None)) }
    ensures placed { IfOk result (λ s. HasPlaces s.places s.list) }
{
    match changed(alloc, action, None)? {
        Some(value) => {
            let name = copy_name(alloc, name)?;
            Ok(pushed(slots, key, Member { name, value })?)
        }
        None => Ok(slots),
    }
}

/// Whether a missing property is made by an edit at the end of steps.
pub fn makes_there(action: &Action, steps: &[Step]) -> bool
    ensures { result ≡ (makes action.now && is_end steps.now) }
{
    makes(action) && is_end(steps)
}

/// Slots after an edit at a path.
pub fn in_slots<'p>(
    alloc: Global,
    path: &Path,
    action: &Action,
    slots: Slots<Property<'p>>,
) -> Result<Slots<Property<'p>>, RuleStop>
    requires apart { NamesDiffer (present slots.list) }
    requires placed { HasPlaces slots.places slots.list }
    ensures gives { Gives rule_of (presented result) (in_props path.now (change_of action.now) (makes action.now) (present slots.entry.list)) }
    ensures placed { IfOk result (λ s. HasPlaces s.places s.list) }
{
    let key = key_of(alloc, path.name())?;
    match slots.places.get(&key).copied() {
        Some(at) => slot_changed(alloc, path, action, slots, &key, at),
        None => {
            if makes_there(action, path.steps()) {
                slot_made(alloc, path.name(), action, slots, key)
            } else {
                Err(RuleStop::Fault(Rule::NoSuchPlace))
            }
        }
    }
}
