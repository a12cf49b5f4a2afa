//! Tests of well-formedness. Their time grows as n log n, and they go no deeper than the levels
//! that they are given.
ghost use Rattle.std.specs.Prelude.{◌≡◌, ◌≢◌, AllPairs, ◌≤◌, ◌↔◌, IsTrue, IfOk, Any, All};
ghost use Rattle.xmp_tree.specs.Wf.{name_of, value_of, IsWfValue, IsWfShape, IsWfMember, value_depth, shape_depth, member_depth, AreWithin, AreFields, AreQualifiers, IsQualifier, IsOwnSpace, AreWellFormed, AreWellFormedQualifiers, lang_name, IsPlain, IsPlainUri, note_name, Wf};

use crate::naming::{are_apart, is_lang, is_named, is_note, is_own_space, is_type};
use crate::nested::{Member, Shape, Value};
use std::alloc::Global;
use xmp_values::{Memory, Name, Text, is_char_text};

/// Whether one of the members has the name.
pub fn is_among(members: &[Member<'_>], name: &Name<'_>) -> bool
    ensures { IsTrue result ↔ Any (λ m. name_of m ≡ name.now) members.now }
{
    members.iter().any(|member| member.name.same_name(name))
}

/// Whether the value is a simple text with no qualifier.
pub fn is_plain(value: &Value<'_>) -> bool
    ensures { IsTrue result ↔ IsPlain value.now }
{
    match &value.shape {
        Shape::Simple(_) => value.quals.len() == 0,
        _ => false,
    }
}

/// Whether the value is a URI with no qualifier.
pub fn is_plain_uri(value: &Value<'_>) -> bool
    ensures { IsTrue result ↔ IsPlainUri value.now }
{
    match &value.shape {
        Shape::Uri(_) => value.quals.len() == 0,
        _ => false,
    }
}

/// Whether each member has a namespace of its own.
fn are_own(members: &[Member<'_>]) -> bool
    ensures { IsTrue result ↔ All (λ m. IsOwnSpace (name_of m).space) members.now }
{
    members
        .iter()
        .all(|member| is_own_space(member.name.space.bytes()))
}

/// Whether the names may be those of properties or fields.
pub fn are_fields(alloc: Global, members: &[Member<'_>]) -> Result<bool, Memory>
    ensures { IfOk result (λ fits. IsTrue fits ↔ AreFields members.now) }
{
    if !are_own(members) {
        return Ok(false);
    }
    are_apart(alloc, members)
}

/// Whether the member may be a qualifier: `xml:lang` and `rdf:type` have a form of their own.
pub fn is_qualifier(member: &Member<'_>) -> bool
    ensures { IsTrue result ↔ IsQualifier member.now }
{
    if is_lang(&member.name) {
        return is_plain(&member.value);
    }
    if is_type(&member.name) {
        return is_plain_uri(&member.value);
    }
    is_own_space(member.name.space.bytes())
}

/// Whether each member may be a qualifier.
fn are_each_qualifiers(members: &[Member<'_>]) -> bool
    ensures { IsTrue result ↔ All IsQualifier members.now }
{
    members.iter().all(|member| is_qualifier(member))
}

/// Whether no member but the first is `xml:lang`.
fn is_lang_first(members: &[Member<'_>]) -> bool
    ensures { IsTrue result ↔ AllPairs (λ m n. name_of n ≢ lang_name) members.now }
{
    for i in 1..members.len() {
        if is_lang(&members[i].name) {
            return false;
        }
    }
    true
}

/// Whether the members may be the qualifiers of a value.
pub fn are_qualifiers(alloc: Global, members: &[Member<'_>]) -> Result<bool, Memory>
    ensures { IfOk result (λ fits. IsTrue fits ↔ AreQualifiers members.now) }
{
    if !are_each_qualifiers(members) {
        return Ok(false);
    }
    if !is_lang_first(members) {
        return Ok(false);
    }
    are_apart(alloc, members)
}

/// Whether the value is well-formed and goes no deeper than `room` levels, itself counted.
#[cycle(checks)]
pub fn is_value_within(alloc: Global, value: &Value<'_>, room: u64) -> Result<bool, Memory>
    ensures { IfOk result (λ fits. IsTrue fits ↔ (IsWfValue value.now × (value_depth value.now ≤ room))) }
{
    if room == 0 {
        return Ok(false);
    }
    if !is_shape_within(alloc, &value.shape, room - 1)? {
        return Ok(false);
    }
    are_well_formed_qualifiers(alloc, value.quals.as_slice(), room - 1)
}

#[cycle(checks)]
fn is_shape_within(alloc: Global, shape: &Shape<'_>, room: u64) -> Result<bool, Memory>
    ensures { IfOk result (λ fits. IsTrue fits ↔ (IsWfShape shape.now × (shape_depth shape.now ≤ room))) }
{
    match shape {
        Shape::Simple(text) => Ok(is_char_text(text.bytes())),
        Shape::Uri(text) => Ok(is_char_text(text.bytes())),
        Shape::Struct(fields) => are_well_formed(alloc, fields.as_slice(), room),
        Shape::Array(_, items) => are_items_within(alloc, items.as_slice(), room),
    }
}

#[cycle(checks)]
fn is_member_within(alloc: Global, member: &Member<'_>, room: u64) -> Result<bool, Memory>
    ensures { IfOk result (λ fits. IsTrue fits ↔ (IsWfMember member.now × (member_depth member.now ≤ room))) }
{
    if !is_named(&member.name) {
        return Ok(false);
    }
    is_value_within(alloc, &member.value, room)
}

#[cycle(checks)]
fn are_members_within(alloc: Global, members: &[Member<'_>], room: u64) -> Result<bool, Memory>
    ensures { IfOk result (λ fits. IsTrue fits ↔ AreWithin room members.now) }
{
    for member in members {
        if !is_member_within(alloc, member, room)? {
            return Ok(false);
        }
    }
    Ok(true)
}

#[cycle(checks)]
fn are_items_within(alloc: Global, items: &[Value<'_>], room: u64) -> Result<bool, Memory>
    ensures { IfOk result (λ fits. IsTrue fits ↔ (All IsWfValue items.now × All (λ v. value_depth v ≤ room) items.now)) }
{
    for item in items {
        if !is_value_within(alloc, item, room)? {
            return Ok(false);
        }
    }
    Ok(true)
}

/// Whether the members may stand as properties or fields where `room` levels are left.
#[cycle(checks)]
pub fn are_well_formed(alloc: Global, members: &[Member<'_>], room: u64) -> Result<bool, Memory>
    ensures { IfOk result (λ fits. IsTrue fits ↔ AreWellFormed room members.now) }
{
    if !are_members_within(alloc, members, room)? {
        return Ok(false);
    }
    are_fields(alloc, members)
}

/// Whether the members may stand as the qualifiers of a value where `room` levels are left.
#[cycle(checks)]
pub fn are_well_formed_qualifiers(
    alloc: Global,
    members: &[Member<'_>],
    room: u64,
) -> Result<bool, Memory>
    ensures { IfOk result (λ fits. IsTrue fits ↔ AreWellFormedQualifiers room members.now) }
{
    if !are_members_within(alloc, members, room)? {
        return Ok(false);
    }
    are_qualifiers(alloc, members)
}

/// Whether no member is the note.
pub fn has_no_note(members: &[Member<'_>]) -> bool
    ensures { IsTrue result ↔ All (λ m. name_of m ≢ note_name) members.now }
{
    members.iter().all(|member| !is_note(&member.name))
}

/// Whether an about and properties make a tree that is well-formed.
pub fn is_well_formed(alloc: Global, about: &Text<'_>, props: &[Member<'_>]) -> Result<bool, Memory>
    ensures { IfOk result (λ fits. IsTrue fits ↔ Wf record { about = about.now; props = props.now }) }
{
    if !is_char_text(about.bytes()) || !has_no_note(props) {
        return Ok(false);
    }
    are_well_formed(alloc, props, 24)
}
