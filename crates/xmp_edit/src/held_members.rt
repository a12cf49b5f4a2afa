//! The fields of a structure and the qualifiers of a value while edits are made: they are found by
//! scans at first, and through a map once many edits were made of them.
ghost use Rattle.std.specs.Prelude.{◌≡◌, ◌&&◌, ◌∷◌, ◌++◌, not, false, Some, is_some, option_to_list, IfOk};
ghost use Rattle.xmp_values.specs.Stops.{Gives, rule_of};
ghost use Rattle.xmp_tree.specs.Places.{same_name, place_of};
ghost use Rattle.xmp_tree.specs.Wf.{name_of};
ghost use Rattle.xmp_paths.specs.Paths.{is_end};
ghost use Rattle.xmp_edit.specs.Actions.{change_of, makes};
ghost use Rattle.xmp_edit.specs.Edits.{ok_map, at_place, in_members, member_at};
ghost use Rattle.xmp_edit.specs.HeldMembers.{listed, lists_in, first_made};

use crate::action::Action;
use crate::fields::Fields;
use crate::places::{at_place, in_members};
use crate::slots::makes_there;
use std::alloc::Global;
use std::marker::Model;
use xmp_paths::Step;
use xmp_tree::{Member, Members, copy_name, join};
use xmp_values::{Memory, Name, Rule, RuleStop, names_differ};

/// How many edits are made by scans, before a map is made.
const FEW: u8 = 16;

/// How members are found.
#[derive(Drop)]
pub enum Found<'p> {
    /// By scans, which so many edits took.
    Scanned(Members<'p>, u8),
    /// Through a map. One that an edit put in front of the others, `xml:lang`, stands by itself, since it
    /// would move the slots of all.
    Mapped(Option<Member<'p>>, Fields<'p>),
}

/// Members. To contracts they are their list.
#[derive(Drop)]
pub struct HeldMembers<'p> {
    found: Found<'p>,
}

impl<'p> Model for HeldMembers<'p> {
    ghost use Rattle.xmp_edit.specs.Codes.{FieldList, fields_code};
    ghost use Rattle.xmp_edit.specs.HeldMembers.{listed};

    ghost Value = { FieldList };

    ghost coded = { fields_code };

    ghost view = { λ h. listed h.found };
}

impl<'p> HeldMembers<'p> {
    /// The members of a tree.
    pub fn of(members: Members<'p>) -> HeldMembers<'p>
        ensures { result ≡ members.entry }
    {
        HeldMembers {
            found: Found::Scanned(members, 0),
        }
    }

    /// The members as a tree has them.
    pub fn into_members(self, alloc: Global) -> Result<Members<'p>, Memory>
        ensures { IfOk result (λ ms. ms ≡ self.entry) }
    {
        let HeldMembers { found } = self;
        match found {
            Found::Scanned(members, _) => Ok(members),
            Found::Mapped(first, fields) => with_first(alloc, first, fields),
        }
    }

    /// The members after an edit at a name and after it. Where the edit makes a member, it is the first
    /// if it goes to the front, and the last if not.
    pub fn edited(
        self,
        alloc: Global,
        front: bool,
        name: &Name<'_>,
        rest: &[Step],
        action: &Action,
    ) -> Result<HeldMembers<'p>, RuleStop>
        ensures { Gives rule_of result (in_members (at_place rest.now (change_of action.now) (makes action.now)) (makes action.now && is_end rest.now) front name.now self.entry) }
    {
        let HeldMembers { found } = self;
        let found = match opened(alloc, found)? {
            Found::Scanned(members, edits) => {
                let members = in_members(alloc, rest, action, front, name, members)?;
                Found::Scanned(members, edits)
            }
            Found::Mapped(first, fields) => {
                in_mapped(alloc, front, name, rest, action, first, fields)?
            }
        };
        Ok(HeldMembers { found })
    }
}

/// The members for one more edit, which is counted: with a map if many were made.
fn opened<'p>(alloc: Global, found: Found<'p>) -> Result<Found<'p>, Memory>
    ensures { IfOk result (λ f. listed f ≡ listed found.entry) }
{
    match found {
        Found::Scanned(members, edits) => {
            if edits < FEW {
                Ok(Found::Scanned(members, edits + 1))
            } else {
                mapped(alloc, members)
            }
        }
        Found::Mapped(first, fields) => Ok(Found::Mapped(first, fields)),
    }
}

/// The members with a map.
fn mapped<'p>(alloc: Global, members: Members<'p>) -> Result<Found<'p>, Memory>
    ensures { IfOk result (λ f. listed f ≡ members.entry) }
{
    // The names of a tree differ, which no clause tells here.
    if names_differ(alloc, members.as_slice())? {
        Ok(Found::Mapped(None, Fields::of(alloc, members)?))
    } else {
        Ok(Found::Scanned(members, 0))
    }
}

/// The members after the first, if there is one.
fn with_first<'p>(
    alloc: Global,
    first: Option<Member<'p>>,
    fields: Fields<'p>,
) -> Result<Members<'p>, Memory>
    ensures { IfOk result (λ ms. ms ≡ option_to_list first.entry ++ fields.entry) }
{
    let mut members = fields.into_members(alloc)?;
    match first {
        Some(member) => {
            join(true, &mut members, member)?;
            Ok(members)
        }
        None => Ok(members),
    }
}

/// Whether the member has the name.
fn has_name(member: &Member<'_>, name: &Name<'_>) -> bool
    ensures { result ≡ same_name (name_of member.now) name.now }
{
    member.name.same_name(name)
}

/// Whether a member of the name would be a new one in front of these.
fn moves(alloc: Global, front: bool, name: &Name<'_>, fields: &Fields<'_>) -> Result<bool, Memory>
    ensures { IfOk result (λ new. new ≡ (front && not (is_some (place_of name.now fields.now)))) }
{
    if front {
        Ok(!fields.has(alloc, name)?)
    } else {
        Ok(false)
    }
}

/// Members that have a map after an edit.
fn in_mapped<'p>(
    alloc: Global,
    front: bool,
    name: &Name<'_>,
    rest: &[Step],
    action: &Action,
    first: Option<Member<'p>>,
    fields: Fields<'p>,
) -> Result<Found<'p>, RuleStop>
    ensures { Gives rule_of (lists_in result) (in_members (at_place rest.now (change_of action.now) (makes action.now)) (makes action.now && is_end rest.now) front name.now (option_to_list first.entry ++ fields.entry)) }
{
    match first {
        Some(member) => {
            if has_name(&member, name) {
                in_first(alloc, rest, action, member, fields)
            } else {
                past_first(alloc, front, name, rest, action, member, fields)
            }
        }
        None => with_no_first(alloc, front, name, rest, action, fields),
    }
}

/// Members after an edit after the first.
fn in_first<'p>(
    alloc: Global,
    rest: &[Step],
    action: &Action,
    member: Member<'p>,
    fields: Fields<'p>,
) -> Result<Found<'p>, RuleStop>
    ensures { Gives rule_of (lists_in result) (member_at (at_place rest.now (change_of action.now) (makes action.now)) (member.entry ∷ fields.entry) 0 (Some member.entry)) }
{
    let Member { name, value } = member;
    match at_place(alloc, rest, action, Some(value))? {
        Some(value) => Ok(Found::Mapped(Some(Member { name, value }), fields)),
        None => Ok(Found::Mapped(None, fields)),
    }
}

/// Members after an edit at a name that the first doesn't have. Two that go to the front have one name,
/// which no clause tells here.
fn past_first<'p>(
    alloc: Global,
    front: bool,
    name: &Name<'_>,
    rest: &[Step],
    action: &Action,
    member: Member<'p>,
    fields: Fields<'p>,
) -> Result<Found<'p>, RuleStop>
    requires { same_name (name_of member) name.now ≡ false }
    ensures { Gives rule_of (lists_in result) (in_members (at_place rest.now (change_of action.now) (makes action.now)) (makes action.now && is_end rest.now) front name.now (member.entry ∷ fields.entry)) }
{
    if moves(alloc, front, name, &fields)? {
        let members = with_first(alloc, Some(member), fields)?;
        let members = in_members(alloc, rest, action, front, name, members)?;
        Ok(Found::Scanned(members, 0))
    } else {
        behind_first(alloc, name, rest, action, member, fields)
    }
}

/// Members after an edit behind the first.
fn behind_first<'p>(
    alloc: Global,
    name: &Name<'_>,
    rest: &[Step],
    action: &Action,
    member: Member<'p>,
    fields: Fields<'p>,
) -> Result<Found<'p>, RuleStop>
    ensures { Gives rule_of (lists_in result) (ok_map (λ ms. member.entry ∷ ms) (in_members (at_place rest.now (change_of action.now) (makes action.now)) (makes action.now && is_end rest.now) false name.now fields.entry)) }
{
    let fields = fields.edited(alloc, name, rest, action)?;
    Ok(Found::Mapped(Some(member), fields))
}

/// Members after an edit, where none stands before those of the map.
fn with_no_first<'p>(
    alloc: Global,
    front: bool,
    name: &Name<'_>,
    rest: &[Step],
    action: &Action,
    fields: Fields<'p>,
) -> Result<Found<'p>, RuleStop>
    ensures { Gives rule_of (lists_in result) (in_members (at_place rest.now (change_of action.now) (makes action.now)) (makes action.now && is_end rest.now) front name.now fields.entry) }
{
    if moves(alloc, front, name, &fields)? {
        new_first(alloc, name, rest, action, fields)
    } else {
        let fields = fields.edited(alloc, name, rest, action)?;
        Ok(Found::Mapped(None, fields))
    }
}

/// Members with a new one in front, if the edit gives one.
fn new_first<'p>(
    alloc: Global,
    name: &Name<'_>,
    rest: &[Step],
    action: &Action,
    fields: Fields<'p>,
) -> Result<Found<'p>, RuleStop>
    ensures { Gives rule_of (lists_in result) (ok_map (λ first. option_to_list first ++ fields.entry) (first_made (at_place rest.now (change_of action.now) (makes action.now)) (makes action.now && is_end rest.now) name.now)) }
{
    let first = first_made(alloc, name, rest, action)?;
    Ok(Found::Mapped(first, fields))
}

/// A new member, if the edit gives one.
fn first_made<'p>(
    alloc: Global,
    name: &Name<'_>,
    rest: &[Step],
    action: &Action,
) -> Result<Option<Member<'p>>, RuleStop>
    ensures { Gives rule_of result (first_made (at_place rest.now (change_of action.now) (makes action.now)) (makes action.now && is_end rest.now) name.now) }
{
    if !makes_there(action, rest) {
        return Err(RuleStop::Fault(Rule::NoSuchPlace));
    }
    match at_place(alloc, rest, action, None)? {
        Some(value) => {
            let name = copy_name(alloc, name)?;
            Ok(Some(Member { name, value }))
        }
        None => Ok(None),
    }
}
