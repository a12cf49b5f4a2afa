//! Copies that own all their texts.
ghost use Rattle.std.specs.Prelude.{◌≡◌, IfOk};

use crate::nested::{Items, Member, Members, Shape, Value};
use std::alloc::Global;
use xmp_values::{Bytes, Memory, Name, Sequence, Text};

pub fn copy_text<'q>(alloc: Global, text: &Text<'_>) -> Result<Text<'q>, Memory>
    ensures { IfOk result (λ c. c ≡ text.now) }
{
    let bytes = Bytes::from_slice(alloc, text.bytes())?;
    Text::own(alloc, bytes)
}

/// An equal name that owns its texts.
pub fn copy_name<'q>(alloc: Global, name: &Name<'_>) -> Result<Name<'q>, Memory>
    ensures { IfOk result (λ c. c ≡ name.now) }
{
    let space = copy_text(alloc, &name.space)?;
    let local = copy_text(alloc, &name.local)?;
    Ok(Name { space, local })
}

/// An equal value that owns its texts.
#[cycle(copy)]
pub fn copy_value<'q>(alloc: Global, value: &Value<'_>) -> Result<Value<'q>, Memory>
    ensures { IfOk result (λ c. c ≡ value.now) }
{
    let shape = copy_shape(alloc, &value.shape)?;
    let quals = copy_members(alloc, value.quals.as_slice())?;
    Ok(Value { shape, quals })
}

#[cycle(copy)]
fn copy_shape<'q>(alloc: Global, shape: &Shape<'_>) -> Result<Shape<'q>, Memory>
    ensures { IfOk result (λ c. c ≡ shape.now) }
{
    match shape {
        Shape::Simple(text) => Ok(Shape::Simple(copy_text(alloc, text)?)),
        Shape::Uri(text) => Ok(Shape::Uri(copy_text(alloc, text)?)),
        Shape::Struct(fields) => Ok(Shape::Struct(copy_members(alloc, fields.as_slice())?)),
        Shape::Array(kind, items) => Ok(Shape::Array(*kind, copy_items(alloc, items.as_slice())?)),
    }
}

#[cycle(copy)]
fn copy_member<'q>(alloc: Global, member: &Member<'_>) -> Result<Member<'q>, Memory>
    ensures { IfOk result (λ c. c ≡ member.now) }
{
    let name = copy_name(alloc, &member.name)?;
    let value = copy_value(alloc, &member.value)?;
    Ok(Member { name, value })
}

/// An equal list whose members own their texts.
#[cycle(copy)]
pub fn copy_members<'q>(alloc: Global, members: &[Member<'_>]) -> Result<Members<'q>, Memory>
    ensures { IfOk result (λ c. c ≡ members.now) }
{
    let mut made = Sequence::new(alloc);
    for member in members {
        made.push(copy_member(alloc, member)?)?;
    }
    Ok(made)
}

#[cycle(copy)]
fn copy_items<'q>(alloc: Global, items: &[Value<'_>]) -> Result<Items<'q>, Memory>
    ensures { IfOk result (λ c. c ≡ items.now) }
{
    let mut made = Sequence::new(alloc);
    for item in items {
        made.push(copy_value(alloc, item)?)?;
    }
    Ok(made)
}
