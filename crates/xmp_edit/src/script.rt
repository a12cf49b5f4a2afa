//! Scripts: edits in their order.
ghost use Rattle.std.specs.Prelude.{◌≡◌, Ok, IfOk};
ghost use Rattle.xmp_values.specs.Stops.{Gives, place_of};
ghost use Rattle.xmp_edit.specs.Allowed.{IsAllowed};
ghost use Rattle.xmp_edit.specs.Scripts.{edits_made};
ghost use Rattle.xmp_edit.specs.ScriptOf.{lines_read, beginning, finished, script_of, word_of, one_set_of};
ghost use Rattle.xmp_edit.specs.Lines.{lines_of};

use crate::action::Action;
use crate::drafts::Draft;
use crate::edit::Edit;
use crate::judging::edit_of;
use crate::reading::{Reading, with_hints};
use std::alloc::Global;
use std::marker::Model;
use std::str::from_utf8;
use xmp_paths::Namespaces;
use xmp_tree::Tree;
use xmp_values::{Bytes, Hints, Memory, PlaceStop, Rule, RuleStop, Sequence, Text};

/// Edits that are allowed, and the hints of the file with those of the script. To contracts it is both.
#[derive(Drop)]
pub struct Script {
    alloc: Global,
    edits: Sequence<Edit>,
    hints: Hints,
}

impl Model for Script {
    ghost use Rattle.std.specs.Prelude.{All};
    ghost use Rattle.xmp_edit.specs.ScriptParts.{ScriptParts, script_code};
    ghost use Rattle.xmp_edit.specs.Allowed.{IsAllowed};

    ghost Value = { ScriptParts };

    ghost coded = { script_code };

    ghost view = { λ s. record { edits = s.edits; hints = s.hints } };

    ghost invariant = { λ s. All IsAllowed s.edits };
}

impl Script {
    /// The script of a text. Prefixes are looked up in its `ns` lines, then among the known ones, then
    /// in `hints`. The fault is that of the first bad line, with its number from 1 and the first of
    /// these rules that it breaks: BadLine, BadPath, UnknownPrefix, Reserved, BadText, BadTag, EditDeep.
    /// Where the text isn't UTF-8, it is ScriptUtf8 with the place of the byte.
    pub fn read(alloc: Global, bytes: &[u8], hints: &Hints) -> Result<Script, PlaceStop>
        ensures { Gives place_of result (script_of hints.now bytes.now) }
    {
        match from_utf8(bytes) {
            Ok(_) => read_text(alloc, bytes, hints),
            Err(error) => Err(PlaceStop::Fault(Rule::ScriptUtf8, error.valid_up_to() as u64)),
        }
    }

    /// The given hints, and after them those of the `ns` lines whose namespaces are new.
    pub fn hints(&self) -> &Hints
        ensures { result.now ≡ self.now.hints }
    {
        &self.hints
    }
}

/// The script of what was read.
fn finished(alloc: Global, hints: &Hints, reading: Reading<'_>) -> Result<Script, Memory>
    ensures { IfOk result (λ s. finished hints.now (Ok reading.entry) ≡ Ok s) }
{
    let (spaces, edits) = reading.into_parts();
    let hints = with_hints(alloc, hints, spaces.lines())?;
    Ok(Script {
        alloc,
        edits,
        hints,
    })
}

/// The script of a text that is UTF-8.
fn read_text(alloc: Global, bytes: &[u8], hints: &Hints) -> Result<Script, PlaceStop>
    ensures { Gives place_of result (finished hints.now (lines_read (lines_of bytes.now) 1 (beginning hints.now))) }
{
    let begun = Reading::of(alloc, hints)?;
    match begun.lines_read(alloc, bytes) {
        Ok(reading) => Ok(finished(alloc, hints, reading)?),
        Err(stop) => Err(stop),
    }
}

/// The word of the command line that breaks a rule: that of the text, or that of the path.
fn word_of(rule: Rule) -> u64
    ensures { result ≡ word_of rule }
{
    match rule {
        Rule::BadText | Rule::BadLanguageTag => 4,
        _ => 3,
    }
}

/// The script of the one edit `set`, whose number is 3. A fault has the number of the word that breaks
/// the rule: 3 for the path, 4 for the text.
pub fn one_set(alloc: Global, path: &[u8], value: &[u8], hints: &Hints) -> Result<Script, PlaceStop>
    ensures { Gives place_of result (one_set_of hints.now path.now value.now) }
{
    let text = Text::own(alloc, Bytes::from_slice(alloc, value)?)?;
    let spaces = Namespaces::of(alloc, hints)?;
    match edit_of(alloc, &spaces, 3, path, &None, Action::SetText(text)) {
        Ok(edit) => {
            let mut edits = Sequence::new(alloc);
            edits.push(edit)?;
            let hints = hints.try_clone(alloc)?;
            Ok(Script {
                alloc,
                edits,
                hints,
            })
        }
        Err(RuleStop::Fault(rule)) => Err(PlaceStop::Fault(rule, word_of(rule))),
        Err(RuleStop::Memory) => Err(PlaceStop::Memory),
    }
}

/// The tree that the edits make, one after the other; or the rule and the line's number of the first
/// that is refused. Nothing of the tree is kept then.
pub fn apply<'p>(t: Tree<'p>, s: &Script) -> Result<Tree<'p>, PlaceStop>
    ensures { Gives place_of result (edits_made s.now.edits t.entry) }
{
    let mut draft = Draft::of(s.alloc, t)?;
    for edit in s.edits.as_slice() {
        match draft.edited(s.alloc, edit) {
            Ok(made) => draft = made,
            Err(stop) => return Err(stop.at(edit.line)),
        }
    }
    Ok(draft.into_tree(s.alloc)?)
}
