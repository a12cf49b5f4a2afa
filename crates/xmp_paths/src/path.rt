//! Paths.
ghost use Rattle.std.specs.Prelude.{◌≡◌, Some};
ghost use Rattle.xmp_paths.specs.Allowed.{IsAllowedPath, IsSpelling};
ghost use Rattle.xmp_paths.specs.Paths.{path_of, path_named};
ghost use Rattle.xmp_values.specs.Stops.{Gives, rule_of};

use crate::namespaces::Namespaces;
use crate::resolving::{is_reserved, name_found, steps_found};
use crate::spelling::{Spelling, spelled};
use crate::step::Step;
use std::alloc::Global;
use std::marker::Model;
use xmp_values::{Hints, Name, Rule, RuleStop, Sequence};

/// A place in a tree: the name of a property and steps. No name of it is reserved. It owns its texts.
#[derive(Drop)]
pub struct Path {
    name: Name<'static>,
    steps: Sequence<Step>,
}

impl Model for Path {
    ghost use Rattle.xmp_paths.specs.Parts.{PathParts, path_code};
    ghost use Rattle.xmp_paths.specs.Allowed.{IsAllowedPath};

    ghost Value = { PathParts };

    ghost coded = { path_code };

    ghost view = { λ p. record { name = p.name; steps = p.steps } };

    ghost invariant = { λ p. IsAllowedPath record { name = p.name; steps = p.steps } };
}

impl Path {
    /// The path of a text. Prefixes are looked up among the known ones, then in `hints`. The first of
    /// these that holds for the whole text is its fault: it isn't of the grammar (`BadPath`), a prefix
    /// isn't found (`UnknownPrefix`), a name is `Reserved`, it has more than 23 steps (`EditDeep`).
    pub fn read(alloc: Global, text: &[u8], hints: &Hints) -> Result<Path, RuleStop>
        ensures { Gives rule_of result (path_of hints.now text.now) }
    {
        let Some(spelling) = spelled(alloc, text)? else {
            return Err(RuleStop::Fault(Rule::BadPath));
        };
        let path = Path::named(alloc, &Namespaces::of(alloc, hints)?, &spelling)?;
        if path.steps.len() > 23 {
            return Err(RuleStop::Fault(Rule::EditDeep));
        }
        Ok(path)
    }

    /// The path that a spelling names, however deep it goes.
    pub fn named(
        alloc: Global,
        spaces: &Namespaces<'_>,
        spelling: &Spelling<'_>,
    ) -> Result<Path, RuleStop>
        requires { IsSpelling spelling.now }
        ensures { Gives rule_of result (path_named spaces.now (Some spelling.now)) }
    {
        let Some(name) = name_found(alloc, spaces, &spelling.first)? else {
            return Err(RuleStop::Fault(Rule::UnknownPrefix));
        };
        let Some(steps) = steps_found(alloc, spaces, spelling.steps.as_slice())? else {
            return Err(RuleStop::Fault(Rule::UnknownPrefix));
        };
        if is_reserved(&name, steps.as_slice()) {
            return Err(RuleStop::Fault(Rule::Reserved));
        }
        Ok(Path { name, steps })
    }

    /// The name of the property.
    pub fn name(&self) -> &Name<'static>
        ensures { result.now ≡ self.now.name }
    {
        &self.name
    }

    /// The steps from the property's value.
    pub fn steps(&self) -> &[Step]
        ensures steps { result.now ≡ self.now.steps }
        ensures allowed { IsAllowedPath self.now }
    {
        self.steps.as_slice()
    }
}
