//! What is at a path.
ghost use Rattle.std.specs.Prelude.{◌≡◌};
ghost use Rattle.std.specs.Option.{option_copied};
ghost use Rattle.xmp_paths.specs.Places.{fields_of, items_of, child, child_at, at};

use crate::path::Path;
use crate::step::Step;
use xmp_tree::{Member, Shape, Tree, Value, tag_place, value_named};

/// The fields of a structure; none of another value.
fn fields_of<'t, 'p>(value: &'t Value<'p>) -> &'t [Member<'p>]
    ensures { result.now ≡ fields_of value.now }
{
    match &value.shape {
        Shape::Struct(fields) => fields.as_slice(),
        _ => &[],
    }
}

/// The items of an array; none of another value.
pub fn items_of<'t, 'p>(value: &'t Value<'p>) -> &'t [Value<'p>]
    ensures { result.now ≡ items_of value.now }
{
    match &value.shape {
        Shape::Array(_, items) => items.as_slice(),
        _ => &[],
    }
}

/// The value to which a step leads.
pub fn child<'t, 'p>(step: &Step, value: &'t Value<'p>) -> Option<&'t Value<'p>>
    ensures { option_copied result ≡ child step.now value.now }
{
    match step {
        Step::Field(name) => value_named(fields_of(value), name),
        Step::Qualifier(name) => value_named(value.quals.as_slice(), name),
        Step::Item(at) => items_of(value).get(*at),
        Step::Tag(tag) => {
            let items = items_of(value);
            match tag_place(items, tag.bytes()) {
                Some(at) => items.get(at),
                None => None,
            }
        }
    }
}

/// The value at the end of steps.
fn child_at<'t, 'p>(steps: &[Step], value: &'t Value<'p>) -> Option<&'t Value<'p>>
    ensures { option_copied result ≡ child_at steps.now value.now }
{
    match steps {
        [] => Some(value),
        [step, rest @ ..] => match child(step, value) {
            Some(held) => child_at(rest, held),
            None => None,
        },
    }
}

/// The value at a path; None exactly where there is none. It takes no memory.
pub fn find<'t, 'p>(t: &'t Tree<'p>, p: &Path) -> Option<&'t Value<'p>>
    ensures { option_copied result ≡ at t.now p.now }
{
    match value_named(t.props.as_slice(), p.name()) {
        Some(value) => child_at(p.steps(), value),
        None => None,
    }
}
