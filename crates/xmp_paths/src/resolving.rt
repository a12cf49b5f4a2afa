//! From a spelling to a path: the names' namespaces, and which names no path has.
ghost use Rattle.std.specs.Prelude.{◌≡◌, IfOk};
ghost use Rattle.xmp_paths.specs.Paths.{name_found, step_found, steps_found, is_foreign, is_special, is_end, is_reserved_step, are_reserved, is_reserved};
ghost use Rattle.xmp_paths.specs.Namespaces.{AreBound};

use crate::namespaces::Namespaces;
use crate::spelling::{Prefixed, SpelledStep};
use crate::step::Step;
use std::alloc::Global;
use xmp_tree::{copy_text, is_lang, is_note, is_type};
use xmp_values::{Bytes, Memory, Name, Sequence, Text, is_rdf_namespace, is_xml_namespace};

/// The name of a spelled one; None where its prefix isn't found.
pub fn name_found(
    alloc: Global,
    spaces: &Namespaces<'_>,
    spelled: &Prefixed<'_>,
) -> Result<Option<Name<'static>>, Memory>
    ensures found { IfOk result (λ name. name ≡ name_found spaces.now spelled.now) }
    ensures valid { AreBound spaces.now }
{
    let Some(space) = spaces.space_of(spelled.prefix.bytes()) else {
        return Ok(None);
    };
    let space = Text::own(alloc, Bytes::from_slice(alloc, space)?)?;
    let local = copy_text(alloc, &spelled.local)?;
    Ok(Some(Name { space, local }))
}

fn step_found(
    alloc: Global,
    spaces: &Namespaces<'_>,
    spelled: &SpelledStep<'_>,
) -> Result<Option<Step>, Memory>
    ensures { IfOk result (λ step. step ≡ step_found spaces.now spelled.now) }
{
    match spelled {
        SpelledStep::Field(name) => match name_found(alloc, spaces, name)? {
            Some(name) => Ok(Some(Step::Field(name))),
            None => Ok(None),
        },
        SpelledStep::Qualifier(name) => match name_found(alloc, spaces, name)? {
            Some(name) => Ok(Some(Step::Qualifier(name))),
            None => Ok(None),
        },
        SpelledStep::Item(at) => Ok(Some(Step::Item(*at))),
        SpelledStep::Tag(tag) => Ok(Some(Step::Tag(copy_text(alloc, tag)?))),
    }
}

/// The steps of spelled ones; None where a prefix isn't found.
pub fn steps_found(
    alloc: Global,
    spaces: &Namespaces<'_>,
    spelled: &[SpelledStep<'_>],
) -> Result<Option<Sequence<Step>>, Memory>
    ensures { IfOk result (λ steps. steps ≡ steps_found spaces.now spelled.now) }
{
    let mut steps = Sequence::new(alloc);
    for step in spelled {
        match step_found(alloc, spaces, step)? {
            Some(step) => steps.push(step)?,
            None => return Ok(None),
        }
    }
    Ok(Some(steps))
}

/// Whether the name is one of RDF's or XML's.
fn is_foreign(name: &Name<'_>) -> bool
    ensures { result ≡ is_foreign name.now }
{
    is_rdf_namespace(name.space.bytes()) || is_xml_namespace(name.space.bytes())
}

/// Whether the name is `xml:lang` or `rdf:type`.
#[tactic(auto, unfolding(xmp_tree::specs::Places::same_name, xmp_tree::specs::Wf::lang_name, xmp_tree::specs::Wf::type_name))]
fn is_special(name: &Name<'_>) -> bool
    ensures { result ≡ is_special name.now }
{
    is_lang(name) || is_type(name)
}

/// Whether no path has the step, with these after it.
fn is_reserved_step(step: &Step, more: &[Step]) -> bool
    ensures { result ≡ is_reserved_step step.now more.now }
{
    match step {
        Step::Field(name) => is_foreign(name),
        Step::Qualifier(name) => is_foreign(name) && !(is_special(name) && more.is_empty()),
        Step::Item(_) | Step::Tag(_) => false,
    }
}

fn are_reserved(steps: &[Step]) -> bool
    ensures { result ≡ are_reserved steps.now }
{
    for at in 0..steps.len() {
        if is_reserved_step(&steps[at], &steps[at + 1..]) {
            return true;
        }
    }
    false
}

/// Whether no path has the name in front and these steps: the note is no property, names of RDF and XML
/// are none, and `xml:lang` and `rdf:type` are qualifiers at the end alone.
#[tactic(auto, unfolding(xmp_tree::specs::Places::same_name, xmp_tree::specs::Wf::note_name))]
pub fn is_reserved(name: &Name<'_>, steps: &[Step]) -> bool
    ensures { result ≡ is_reserved record { name = name.now; steps = steps.now } }
{
    is_note(name) || is_foreign(name) || are_reserved(steps)
}
