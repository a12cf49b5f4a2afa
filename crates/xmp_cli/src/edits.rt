//! The edits of `set`, `apply` and `patch`: from the words and SCRIPT to the plan for a file.
ghost use Rattle.std.specs.Prelude.{◌≡◌};
ghost use Rattle.xmp_values.specs.Stops.{place_of, Gives};
ghost use Rattle.xmp_edit.specs.Scripts.{edits_made};
ghost use Rattle.xmp_files.specs.Loads.{IsOfSize};
ghost use Rattle.xmp_cli.specs.Edits.{edits_from, part_of};
ghost use Rattle.xmp_cli.specs.EditSteps.{source, is_inside, TextCall, FromText, PlanCall};

use crate::faults::{no_script, over_script};
use std::alloc::Global;
use xmp_base::{Desk, ReadStop, read_all};
use xmp_edit::{Script, apply, one_set};
use xmp_files::{Held, Opened, Planned, plan};
use xmp_rdf::Meaning;
use xmp_tree::{Tree, copy};
use xmp_values::{Bytes, FaultStop, FileStop, Part, PlaceStop};

/// What is edited, and where it is written.
#[derive(Clone, Copy, Debug, PartialEq, Eq)]
pub enum Edits<'w> {
    /// The text at a path becomes this value, in OUT.
    Set {
        out: &'w str,
        path: &'w str,
        value: &'w str,
    },
    /// The lines of SCRIPT are made in OUT.
    Apply {
        out: &'w str,
        script: &'w str,
    },
    /// The lines of SCRIPT are made inside the packet of FILE.
    Patch {
        script: &'w str,
    },
}

/// The most bytes of SCRIPT.
pub const SCRIPT_LIMIT: u64 = 1 << 20;

/// The text of SCRIPT, none for `set`. Changes no file.
fn script_text<D: Desk>(alloc: Global, desk: &mut D, edits: Edits<'_>) -> Result<Bytes, FileStop>
    ensures call { TextCall (source edits.entry) (D.state desk.old) (D.state desk.new) result }
{
    match edits {
        Edits::Set { .. } => Ok(Bytes::new(alloc)),
        Edits::Apply { script, .. } | Edits::Patch { script } => match read_all(
            alloc,
            desk,
            script,
            SCRIPT_LIMIT,
        ) {
            Ok(bytes) => Ok(bytes),
            Err(ReadStop::Absent) => Err(FileStop::Fault(no_script())),
            Err(ReadStop::TooLarge(size)) => Err(FileStop::Fault(over_script(size))),
            Err(ReadStop::Device) => Err(FileStop::Device),
            Err(ReadStop::Memory) => Err(FileStop::Memory),
        },
    }
}

/// The part of the work in which the places of edits are counted.
fn part_of(edits: Edits<'_>) -> Part
    ensures { result ≡ part_of (source edits.entry) }
{
    match edits {
        Edits::Set { .. } => Part::Words,
        Edits::Apply { .. } | Edits::Patch { .. } => Part::Script,
    }
}

/// Whether FILE may be changed inside its packet alone.
fn is_inside(edits: Edits<'_>) -> bool
    ensures { result ≡ is_inside edits.entry }
{
    match edits {
        Edits::Set { .. } | Edits::Apply { .. } => false,
        Edits::Patch { .. } => true,
    }
}

/// The script of the words, or that of SCRIPT's text.
fn script_of(
    alloc: Global,
    text: &[u8],
    meaning: &Meaning<'_>,
    edits: Edits<'_>,
) -> Result<Script, PlaceStop>
    ensures { Gives place_of result (edits_from (source edits.entry) text.now meaning.now.hints) }
{
    match edits {
        Edits::Set { path, value, .. } => {
            one_set(alloc, path.as_bytes(), value.as_bytes(), &meaning.hints)
        }
        Edits::Apply { .. } | Edits::Patch { .. } => Script::read(alloc, text, &meaning.hints),
    }
}

/// The tree that a script makes of a file's, which stays.
fn edited<'p>(alloc: Global, meaning: &Meaning<'p>, script: &Script) -> Result<Tree<'p>, PlaceStop>
    ensures { Gives place_of result (edits_made script.now.edits meaning.now.tree) }
{
    let copied = copy(alloc, &meaning.tree)?;
    apply(copied, script)
}

/// The plan for a file after the edits of a text of SCRIPT.
fn plan_of_text(
    alloc: Global,
    held: &Held,
    opened: &Opened<'_>,
    text: &[u8],
    edits: Edits<'_>,
) -> Result<Planned, FaultStop>
    requires { IsOfSize held.now.size held.now }
    ensures { FromText (source edits.entry) (is_inside edits.entry) text.now held.now opened.now result }
{
    let part = part_of(edits);
    let script = match script_of(alloc, text, &opened.meaning, edits) {
        Ok(script) => script,
        Err(stop) => return Err(stop.within(part)),
    };
    match edited(alloc, &opened.meaning, &script) {
        Ok(tree) => plan(alloc, held, opened, &tree, script.hints(), is_inside(edits)),
        Err(stop) => Err(stop.within(part)),
    }
}

/// The plan for a file that was opened, after the edits. Changes no file, and reads SCRIPT alone.
pub fn plan_of<D: Desk>(
    alloc: Global,
    desk: &mut D,
    held: &Held,
    opened: &Opened<'_>,
    edits: Edits<'_>,
) -> Result<Planned, FileStop>
    requires lies { IsOfSize held.now.size held.now }
    ensures call { PlanCall (source edits.entry) (is_inside edits.entry) (D.state desk.old) (D.state desk.new) held.now opened.now result }
{
    let text = script_text(alloc, desk, edits)?;
    match plan_of_text(alloc, held, opened, text.as_slice(), edits) {
        Ok(planned) => Ok(planned),
        Err(stop) => Err(FileStop::from(stop)),
    }
}
