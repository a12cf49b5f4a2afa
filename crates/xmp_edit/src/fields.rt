//! The fields of a structure in slots, as properties are: a map leads from a name to its slot, and a
//! field that is taken out moves no other.
ghost use Rattle.std.specs.Prelude.{◌≡◌, ◌++◌, ◌&&◌, false, Some, None, is_some, option_to_list, IfOk, slice_get};
ghost use Rattle.xmp_values.specs.Stops.{Gives, rule_of};
ghost use Rattle.xmp_tree.specs.Wf.{NamesDiffer};
ghost use Rattle.xmp_tree.specs.Places.{place_of};
ghost use Rattle.xmp_paths.specs.Paths.{is_end};
ghost use Rattle.xmp_edit.specs.Actions.{change_of, makes};
ghost use Rattle.xmp_edit.specs.Edits.{ok_map, at_place, with_member, in_members};
ghost use Rattle.xmp_edit.specs.Slots.{present, slot_of, name_at, HasPlaces, slot_changed, lists, presented};

use crate::action::Action;
use crate::changing::changed;
use crate::places::at_place;
use crate::slots::{Key, Slots, emptied, filled, key_of, makes_there, placed};
use std::alloc::Global;
use std::collections::BTreeMap;
use std::marker::Model;
use xmp_paths::Step;
use xmp_tree::{Member, Members, copy_name};
use xmp_values::{Memory, Name, Rule, RuleStop, Sequence};

/// Fields whose names differ. To contracts they are the list of those that are there.
#[derive(Drop)]
pub struct Fields<'p> {
    slots: Slots<Member<'p>>,
}

impl<'p> Model for Fields<'p> {
    ghost use Rattle.xmp_tree.specs.Wf.{NamesDiffer};
    ghost use Rattle.xmp_edit.specs.Codes.{FieldList, fields_code};
    ghost use Rattle.xmp_edit.specs.Slots.{present, HasPlaces};

    ghost Value = { FieldList };

    ghost coded = { fields_code };

    ghost view = { λ f. present f.slots.list };

    ghost invariant = { λ f. NamesDiffer (present f.slots.list) × HasPlaces f.slots.places f.slots.list };
}

impl<'p> Fields<'p> {
    /// The fields of a structure, which are moved. The time grows as n log n with them.
    pub fn of(alloc: Global, members: Members<'p>) -> Result<Fields<'p>, Memory>
        requires apart { NamesDiffer members }
        ensures { IfOk result (λ f. f ≡ members.entry) }
    {
        let slots = slots_of(alloc, members)?;
        Ok(Fields { slots })
    }

    /// The fields as a structure has them.
    pub fn into_members(self, alloc: Global) -> Result<Members<'p>, Memory>
        ensures { IfOk result (λ ms. ms ≡ self.entry) }
    {
        let Fields { slots } = self;
        members_of(alloc, slots)
    }

    /// Whether one of the name is there.
    pub fn has(&self, alloc: Global, name: &Name<'_>) -> Result<bool, Memory>
        ensures { IfOk result (λ there. there ≡ is_some (place_of name.now self.now)) }
    {
        let key = key_of(alloc, name)?;
        Ok(self.slots.places.contains_key(&key))
    }

    /// The fields after an edit at a name and after it.
    pub fn edited(
        self,
        alloc: Global,
        name: &Name<'_>,
        rest: &[Step],
        action: &Action,
    ) -> Result<Fields<'p>, RuleStop>
        ensures { Gives rule_of result (in_members (at_place rest.now (change_of action.now) (makes action.now)) (makes action.now && is_end rest.now) false name.now self.entry) }
    {
        let Fields { slots } = self;
        let slots = in_slots(alloc, name, rest, action, slots)?;
        Ok(Fields { slots })
    }
}

/// The slots of fields.
fn slots_of<'p>(alloc: Global, members: Members<'p>) -> Result<Slots<Member<'p>>, Memory>
    ensures members { IfOk result (λ s. present s.list ≡ members.entry) }
    ensures placed { IfOk result (λ s. HasPlaces s.places s.list) }
{
    let mut list = Sequence::new(alloc);
    let mut places = BTreeMap::new(alloc);
    for member in members.into_vec() {
        let key = key_of(alloc, &member.name)?;
        places = placed(places, key, list.len())?;
        list.push(Some(member))?;
    }
    Ok(Slots { list, places })
}

/// Members with that of a slot.
fn with_slot<'p>(members: Members<'p>, slot: Option<Member<'p>>) -> Result<Members<'p>, Memory>
    ensures { IfOk result (λ ms. ms ≡ members.entry ++ option_to_list slot.entry) }
{
    let mut members = members;
    match slot {
        Some(field) => {
            members.push(field)?;
            Ok(members)
        }
        None => Ok(members),
    }
}

/// The fields that are there.
fn members_of<'p>(alloc: Global, slots: Slots<Member<'p>>) -> Result<Members<'p>, Memory>
    ensures { IfOk result (λ ms. ms ≡ present slots.entry.list) }
{
    let Slots {
        list,
        places: _places,
    } = slots;
    let mut members = Members::new(alloc);
    for slot in list.into_vec() {
        members = with_slot(members, slot)?;
    }
    Ok(members)
}

/// Slots after an edit of the field in one of them.
fn slot_changed<'p>(
    alloc: Global,
    rest: &[Step],
    action: &Action,
    slots: Slots<Member<'p>>,
    key: &Key,
    at: usize,
) -> Result<Slots<Member<'p>>, RuleStop>
    requires here { slot_of (name_at key.now) slots.list ≡ Some at }
    requires apart { NamesDiffer (present slots.list) }
    requires placed { HasPlaces slots.places slots.list }
    ensures gives { Gives rule_of (lists result) (slot_changed (at_place rest.now (change_of action.now) (makes action.now)) slots.entry.list at (slice_get slots.entry.list at)) }
    ensures placed { IfOk result (λ s. HasPlaces s.places s.list) }
{
    let Slots { list, places } = slots;
    let mut list = list;
    match emptied(&mut list, at) {
        None => Err(RuleStop::Fault(Rule::NoSuchPlace)),
        Some(field) => {
            let Member { name, value } = field;
            match at_place(alloc, rest, action, Some(value))? {
                Some(value) => {
                    filled(&mut list, at, Member { name, value });
                    Ok(Slots { list, places })
                }
                None => {
                    let mut places = places;
                    places.remove(key);
                    Ok(Slots { list, places })
                }
            }
        }
    }
}

/// Slots with one field more, if the edit gives one.
fn slot_made<'p>(
    alloc: Global,
    name: &Name<'_>,
    action: &Action,
    slots: Slots<Member<'p>>,
    key: Key,
) -> Result<Slots<Member<'p>>, RuleStop>
    requires keyed { name_at key ≡ name.now }
    requires placed { HasPlaces slots.places slots.list }
    ensures gives { Gives rule_of (presented result) (ok_map (with_member false name.now (present slots.entry.list)) (change_of action.now None)) }
    ensures placed { IfOk result (λ s. HasPlaces s.places s.list) }
{
    match changed(alloc, action, None)? {
        Some(value) => {
            let Slots { list, places } = slots;
            let mut list = list;
            let name = copy_name(alloc, name)?;
            let places = placed(places, key, list.len())?;
            list.push(Some(Member { name, value }))?;
            Ok(Slots { list, places })
        }
        None => Ok(slots),
    }
}

/// Slots after an edit at a name and after it.
fn in_slots<'p>(
    alloc: Global,
    name: &Name<'_>,
    rest: &[Step],
    action: &Action,
    slots: Slots<Member<'p>>,
) -> Result<Slots<Member<'p>>, RuleStop>
    requires apart { NamesDiffer (present slots.list) }
    requires placed { HasPlaces slots.places slots.list }
    ensures gives { Gives rule_of (presented result) (in_members (at_place rest.now (change_of action.now) (makes action.now)) (makes action.now && is_end rest.now) false name.now (present slots.entry.list)) }
    ensures placed { IfOk result (λ s. HasPlaces s.places s.list) }
{
    let key = key_of(alloc, name)?;
    match slots.places.get(&key).copied() {
        Some(at) => slot_changed(alloc, rest, action, slots, &key, at),
        None => {
            if makes_there(action, rest) {
                slot_made(alloc, name, action, slots, key)
            } else {
                Err(RuleStop::Fault(Rule::NoSuchPlace))
            }
        }
    }
}
