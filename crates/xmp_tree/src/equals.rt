//! Equality, by what the texts hold and not by who owns them. It takes no memory.
ghost use Rattle.std.specs.Prelude.{◌≡◌, ◌↔◌, IsTrue};

use crate::nested::{Kind, Member, Shape, Value};

fn equal_kinds(a: Kind, b: Kind) -> bool
    ensures { IsTrue result ↔ (a ≡ b) }
{
    a == b
}

/// Whether two values are equal, qualifiers and order included.
#[cycle(equal)]
#[tactic(auto, using(crate::proofs::Values::same_value))]
pub fn equal_values(a: &Value<'_>, b: &Value<'_>) -> bool
    ensures { IsTrue result ↔ (a.now ≡ b.now) }
{
    equal_shapes(&a.shape, &b.shape) && equal_members(a.quals.as_slice(), b.quals.as_slice())
}

#[cycle(equal)]
fn equal_shapes(a: &Shape<'_>, b: &Shape<'_>) -> bool
    ensures { IsTrue result ↔ (a.now ≡ b.now) }
{
    match (a, b) {
        (Shape::Simple(s), Shape::Simple(t)) => s.same_text(t),
        (Shape::Uri(s), Shape::Uri(t)) => s.same_text(t),
        (Shape::Struct(s), Shape::Struct(t)) => equal_members(s.as_slice(), t.as_slice()),
        (Shape::Array(j, s), Shape::Array(k, t)) => {
            equal_kinds(*j, *k) && equal_items(s.as_slice(), t.as_slice())
        }
        _ => false,
    }
}

#[cycle(equal)]
fn equal_members_at(a: &Member<'_>, b: &Member<'_>) -> bool
    ensures { IsTrue result ↔ (a.now ≡ b.now) }
{
    a.name.same_name(&b.name) && equal_values(&a.value, &b.value)
}

/// Whether two lists have equal names and values in the same order.
#[cycle(equal)]
pub fn equal_members(a: &[Member<'_>], b: &[Member<'_>]) -> bool
    ensures { IsTrue result ↔ (a.now ≡ b.now) }
{
    if a.len() != b.len() {
        return false;
    }
    for i in 0..a.len() {
        if !equal_members_at(&a[i], &b[i]) {
            return false;
        }
    }
    true
}

#[cycle(equal)]
fn equal_items(a: &[Value<'_>], b: &[Value<'_>]) -> bool
    ensures { IsTrue result ↔ (a.now ≡ b.now) }
{
    if a.len() != b.len() {
        return false;
    }
    for i in 0..a.len() {
        if !equal_values(&a[i], &b[i]) {
            return false;
        }
    }
    true
}
