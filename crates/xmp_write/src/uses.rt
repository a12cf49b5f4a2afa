//! The namespaces that a written text declares, in the order of their first use.
ghost use Rattle.std.specs.Prelude.{◌≡◌, ◌+◌, ◌≤◌, [], fold, length, IfOk, OnOk};
ghost use Rattle.std.specs.List.{flat_map};
ghost use Rattle.xmp_tree.specs.Wf.{note_name};
ghost use Rattle.xmp_write.specs.Written.{value_spaces, shape_spaces, member_spaces, note_spaces};
ghost use Rattle.xmp_write.specs.Prefixes.{with_use, declared_spaces};

use crate::forms::Form;
use known_prefixes::is_fixed;
use std::alloc::Global;
use xmp_tree::{Member, Shape, Tree, Value};
use xmp_values::{Digits, Memory, TextSet};

/// Puts a namespace after those used before, unless it is there or is fixed.
fn use_space<'t>(uses: &mut TextSet<'t>, space: &'t [u8]) -> Result<(), Memory>
    ensures { OnOk result (uses.new ≡ with_use uses.old space.now) }
{
    if !is_fixed(space) {
        uses.insert(space)?;
    }
    Ok(())
}

/// Puts the namespaces of a written value after those used before.
#[cycle(uses)]
fn use_value<'t>(uses: &mut TextSet<'t>, value: &'t Value<'_>) -> Result<(), Memory>
    ensures { OnOk result (uses.new ≡ fold with_use uses.old (value_spaces value.now)) }
{
    use_shape(uses, &value.shape)?;
    use_members(uses, value.quals.as_slice())
}

#[cycle(uses)]
fn use_shape<'t>(uses: &mut TextSet<'t>, shape: &'t Shape<'_>) -> Result<(), Memory>
    ensures { OnOk result (uses.new ≡ fold with_use uses.old (shape_spaces shape.now)) }
{
    match shape {
        Shape::Simple(_) | Shape::Uri(_) => Ok(()),
        Shape::Struct(fields) => use_members(uses, fields.as_slice()),
        Shape::Array(_, items) => use_items(uses, items.as_slice()),
    }
}

#[cycle(uses)]
pub fn use_member<'t>(uses: &mut TextSet<'t>, member: &'t Member<'_>) -> Result<(), Memory>
    ensures { OnOk result (uses.new ≡ fold with_use uses.old (member_spaces member.now)) }
{
    use_space(uses, member.name.space.bytes())?;
    use_value(uses, &member.value)
}

#[cycle(uses)]
pub fn use_members<'t>(uses: &mut TextSet<'t>, members: &'t [Member<'_>]) -> Result<(), Memory>
    ensures { OnOk result (uses.new ≡ fold with_use uses.old (flat_map member_spaces members.now)) }
{
    for member in members {
        use_member(uses, member)?;
    }
    Ok(())
}

#[cycle(uses)]
fn use_items<'t>(uses: &mut TextSet<'t>, items: &'t [Value<'_>]) -> Result<(), Memory>
    ensures { OnOk result (uses.new ≡ fold with_use uses.old (flat_map value_spaces items.now)) }
{
    for item in items {
        use_value(uses, item)?;
    }
    Ok(())
}

/// Puts the namespace of the note after those used before.
#[tactic(auto, unfolding(xmp_tree::specs::Wf::note_name))]
pub fn use_note_space(uses: &mut TextSet<'_>) -> Result<(), Memory>
    ensures { OnOk result (uses.new ≡ with_use uses.old note_name.space) }
{
    use_space(uses, b"http://ns.adobe.com/xmp/note/")
}

/// Puts the namespace of the note, where it is written, after those used before.
fn use_note<'t>(uses: &mut TextSet<'t>, note: &Option<Digits>) -> Result<(), Memory>
    ensures { OnOk result (uses.new ≡ fold with_use uses.old (note_spaces note.now)) }
{
    match note {
        Some(_) => use_note_space(uses),
        None => Ok(()),
    }
}

/// The namespaces that the text of a tree declares, by first use.
pub fn declared_spaces<'t>(
    alloc: Global,
    tree: &'t Tree<'_>,
    form: &Form,
) -> Result<TextSet<'t>, Memory>
    requires { form.now.first + form.now.count ≤ length tree.now.props }
    ensures { IfOk result (λ uses. uses ≡ declared_spaces tree.now form.now) }
{
    let props = tree.props.as_slice();
    let mut uses = TextSet::new(alloc);
    use_note(&mut uses, &form.note)?;
    use_members(&mut uses, &props[form.first..form.first + form.count])?;
    Ok(uses)
}
