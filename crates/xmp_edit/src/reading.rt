//! Reading a script line by line.
ghost use Rattle.std.specs.Prelude.{◌≡◌, ◌≤◌, ◌++◌, length, drop, IfOk, All};
ghost use Rattle.std.specs.List.{position_or_len, before_first, fold};
ghost use Rattle.xmp_values.specs.Stops.{Gives, rule_of, place_of};
ghost use Rattle.xmp_values.specs.Hints.{IsValidHint};
ghost use Rattle.xmp_edit.specs.Allowed.{IsAllowed, IsWell};
ghost use Rattle.xmp_edit.specs.Lines.{is_lf, later_lines, lines_of};
ghost use Rattle.xmp_edit.specs.ScriptParts.{HasNamespaces};
ghost use Rattle.xmp_edit.specs.ScriptOf.{taken, line_read, lines_read, beginning, with_hint};

use crate::edit::Edit;
use crate::given::Given;
use crate::judging::given;
use crate::line::{line_of, without_cr};
use std::alloc::Global;
use std::marker::Model;
use xmp_paths::Namespaces;
use xmp_values::{Hint, Hints, Memory, PlaceStop, RuleStop, Sequence, TextSet};

/// What was read of a script so far: what its lines bind, and its edits, which are allowed.
#[derive(Drop)]
pub struct Reading<'s> {
    spaces: Namespaces<'s>,
    edits: Sequence<Edit>,
}

impl<'s> Model for Reading<'s> {
    ghost use Rattle.std.specs.Prelude.{All};
    ghost use Rattle.xmp_edit.specs.ScriptParts.{ReadingParts, reading_code};
    ghost use Rattle.xmp_edit.specs.Allowed.{IsAllowed};

    ghost Value = { ReadingParts };

    ghost coded = { reading_code };

    ghost view = { λ r. record { bindings = r.spaces; edits = r.edits } };

    ghost invariant = { λ r. All IsAllowed r.edits };
}

impl<'s> Reading<'s> {
    /// Nothing is read yet.
    pub fn of(alloc: Global, hints: &'s Hints) -> Result<Reading<'s>, Memory>
        ensures { IfOk result (λ r. r ≡ beginning hints.now) }
    {
        let spaces = Namespaces::of(alloc, hints)?;
        let edits = Sequence::new(alloc);
        Ok(Reading { spaces, edits })
    }

    /// What a line gives is added.
    fn taken(self, alloc: Global, given: Given) -> Result<Reading<'s>, Memory>
        requires { IsWell given }
        ensures { IfOk result (λ r. r ≡ taken self.entry given) }
    {
        let Reading { spaces, edits } = self;
        match given {
            Given::Nothing => Ok(Reading { spaces, edits }),
            Given::Bound(line) => {
                let spaces = spaces.bound(alloc, line)?;
                Ok(Reading { spaces, edits })
            }
            Given::Made(edit) => {
                let mut edits = edits;
                edits.push(edit)?;
                Ok(Reading { spaces, edits })
            }
        }
    }

    /// A line is read.
    fn line_read(self, alloc: Global, number: u64, text: &[u8]) -> Result<Reading<'s>, RuleStop>
        ensures { Gives rule_of result (line_read number self.entry text.now) }
    {
        let line = line_of(alloc, without_cr(text))?;
        let given = given(alloc, &self.spaces, number, line)?;
        let reading = self.taken(alloc, given)?;
        Ok(reading)
    }

    /// The lines after the first are read, up to one that is bad.
    fn later_lines_read(self, alloc: Global, text: &[u8]) -> Result<Reading<'s>, PlaceStop>
        ensures { Gives place_of result (lines_read (later_lines text.now) 2 self.entry) }
    {
        let mut reading = self;
        let mut line = 1;
        for at in 0..text.len() {
            if text[at] == b'\n' {
                line += 1;
                match reading.line_read(alloc, line, line_at(text, at + 1)) {
                    Ok(made) => reading = made,
                    Err(stop) => return Err(stop.at(line)),
                }
            }
        }
        Ok(reading)
    }

    /// The lines of a text are read, up to one that is bad.
    pub fn lines_read(self, alloc: Global, text: &[u8]) -> Result<Reading<'s>, PlaceStop>
        ensures { Gives place_of result (lines_read (lines_of text.now) 1 self.entry) }
    {
        match self.line_read(alloc, 1, line_at(text, 0)) {
            Ok(reading) => reading.later_lines_read(alloc, text),
            Err(stop) => Err(stop.at(1)),
        }
    }

    /// The edits, and what the lines bind.
    pub fn into_parts(self) -> (Namespaces<'s>, Sequence<Edit>)
        ensures parts { (result.0 ≡ self.entry.bindings) × (result.1 ≡ self.entry.edits) }
        ensures allowed { All IsAllowed self.entry.edits }
    {
        let Reading { spaces, edits } = self;
        (spaces, edits)
    }
}

/// The place of the first LF, or the length where there is none.
fn lf_at(text: &[u8]) -> usize
    ensures first { result ≡ position_or_len is_lf text.now }
    ensures within { result ≤ length text.now }
{
    for at in 0..text.len() {
        if text[at] == b'\n' {
            return at;
        }
    }
    text.len()
}

/// The line that begins at a place.
fn line_at(text: &[u8], at: usize) -> &[u8]
    requires { at ≤ length text.now }
    ensures { result.now ≡ before_first is_lf (drop at text.now) }
{
    let rest = &text[at..];
    &rest[..lf_at(rest)]
}

/// The namespaces of hints.
fn namespaces<'h>(alloc: Global, hints: &'h [Hint]) -> Result<TextSet<'h>, Memory>
    ensures { IfOk result (λ seen. HasNamespaces seen hints.now) }
{
    let mut seen = TextSet::new(alloc);
    for hint in hints {
        seen.insert(hint.space.as_slice())?;
    }
    Ok(seen)
}

/// The given hints, and after them those lines whose namespaces are new.
pub fn with_hints(alloc: Global, hints: &Hints, lines: &[Hint]) -> Result<Hints, Memory>
    requires { All IsValidHint lines.now }
    ensures { IfOk result (λ hs. hs ≡ fold with_hint hints.now lines.now) }
{
    let mut seen = namespaces(alloc, hints.as_slice())?;
    let mut merged = hints.try_clone(alloc)?;
    for line in lines {
        if seen.insert(line.space.as_slice())? {
            merged.push(line.try_clone(alloc)?)?;
        }
    }
    Ok(merged)
}
