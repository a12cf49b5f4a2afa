//! The values that attributes and members give (ISO 16684-1, 7.4 to 7.9).
ghost use Rattle.std.specs.Prelude.{◌≡◌, ◌++◌, IfOk, position, not, filter};
ghost use Rattle.xmp_tree.specs.declared.nested.Value.{out-Value};
ghost use Rattle.xmp_tree.specs.Parts.{value};
ghost use Rattle.xmp_tree.specs.Wf.{value_of};
ghost use Rattle.rdf_forms.specs.Values.{is_value_member, other_members, kind_of, by_members, by_attributes};

use crate::members::{lang_qualifiers, own_members};
use rdf_forms::{is_rdf, rdf_value};
use std::alloc::Global;
use xml_grammar::Element;
use xmp_tree::{Kind, Member, Members, Shape, Value};
use xmp_values::{Memory, Name, Sequence};

/// Which array a container is.
#[tactic(auto, unfolding(rdf_forms::specs::Values::kind_of))]
pub fn kind_of(name: &Name<'_>) -> Kind
    ensures { result ≡ kind_of name.now }
{
    if is_rdf(b"Bag".as_slice(), name) {
        Kind::Bag
    } else if is_rdf(b"Seq".as_slice(), name) {
        Kind::Seq
    } else {
        Kind::Alt
    }
}

/// The value by attributes: that of `rdf:value`, of `rdf:resource`, else a structure of the
/// property attributes.
#[tactic(auto, unfolding(rdf_forms::specs::Values::by_attributes))]
pub fn by_attributes<'p>(alloc: Global, element: &Element<'p>) -> Result<Value<'p>, Memory>
    ensures { IfOk result (λ v. v ≡ by_attributes element.now) }
{
    let mut quals = lang_qualifiers(alloc, element)?;
    let members = own_members(alloc, element)?;
    let shape = if let Some(text) = rdf_value(b"value".as_slice(), element) {
        Shape::Simple(text.try_clone()?)
    } else if let Some(uri) = rdf_value(b"resource".as_slice(), element) {
        Shape::Uri(uri.try_clone()?)
    } else {
        let shape = Shape::Struct(members);
        return Ok(Value { shape, quals });
    };
    quals.append(members)?;
    Ok(Value { shape, quals })
}

/// Whether the member is `rdf:value`.
#[tactic(auto, unfolding(rdf_forms::specs::Values::is_value_member))]
fn is_value_member(member: &Member<'_>) -> bool
    ensures { result ≡ is_value_member member.now }
{
    is_rdf(b"value".as_slice(), &member.name)
}

/// The place of the first member `rdf:value`.
fn value_place(members: &[Member<'_>]) -> Option<usize>
    ensures { result ≡ position is_value_member members.now }
{
    members.iter().position(|m| is_value_member(m))
}

/// The members that aren't `rdf:value`, moved.
fn other_members<'p>(members: Members<'p>) -> Members<'p>
    ensures { result ≡ other_members members.entry }
{
    let mut others = members.into_vec();
    others.retain(|m| !is_value_member(m));
    Sequence::from_vec(others)
}

/// The value of a member, moved.
fn value_of<'p>(member: Member<'p>) -> Value<'p>
    ensures { result ≡ value_of member.entry }
{
    member.value
}

/// The value of `rdf:value` with the other members as qualifiers after `xml:lang`.
fn qualified<'p>(
    lang: Members<'p>,
    types: Members<'p>,
    given: Value<'p>,
    others: Members<'p>,
) -> Result<Value<'p>, Memory>
    ensures { IfOk result (λ v. v ≡ value (out-Value given.entry).shape (lang.entry ++ ((out-Value given.entry).quals ++ (types.entry ++ others.entry)))) }
{
    let Value { shape, quals } = given;
    let mut all = lang;
    all.append(quals)?;
    all.append(types)?;
    all.append(others)?;
    Ok(Value { shape, quals: all })
}

/// The value by members: that of `rdf:value`, whose qualifiers the others are, else a structure.
/// First stands `xml:lang`, then the node's type, then the other members in their order. The
/// parts are moved.
pub fn by_members<'p>(
    lang: Members<'p>,
    types: Members<'p>,
    mut members: Members<'p>,
) -> Result<Value<'p>, Memory>
    ensures { IfOk result (λ v. v ≡ by_members lang.entry types.entry members.entry) }
{
    let Some(at) = value_place(members.as_slice()) else {
        let mut quals = lang;
        quals.append(types)?;
        let shape = Shape::Struct(members);
        return Ok(Value { shape, quals });
    };
    let value = value_of(members.remove(at));
    qualified(lang, types, value, other_members(members))
}
