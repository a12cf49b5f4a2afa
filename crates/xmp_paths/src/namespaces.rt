//! From prefixes to namespaces.
ghost use Rattle.std.specs.Prelude.{◌≡◌, [], ◌∷◌, ◌++◌, option_map, IfOk};
ghost use Rattle.std.specs.Option.{option_copied};
ghost use Rattle.xmp_values.specs.Hints.{IsValidHint, space_in};
ghost use Rattle.xmp_paths.specs.Namespaces.{AreBound, is_bound, space_of};
ghost use Rattle.xmp_paths.specs.LinePlaces.{HasLinePlaces};

use known_prefixes::known_space;
use std::alloc::Global;
use std::collections::BTreeMap;
use std::marker::Model;
use xmp_values::{Hint, HintMap, Hints, Memory, Sequence};

/// Where prefixes are looked up: lines of a script that bind them, then the known ones, then the
/// hints of a file. A look-up costs the logarithm of their number. To contracts it is the two lists.
#[derive(Drop)]
pub struct Namespaces<'h> {
    lines: Sequence<Hint>,
    /// The first line of each prefix. It has keys of its own, since a line may move as more come.
    places: BTreeMap<Vec<u8>, usize>,
    hints: HintMap<'h>,
}

impl<'h> Model for Namespaces<'h> {
    ghost use Rattle.xmp_paths.specs.Parts.{Bindings, bindings_code};
    ghost use Rattle.xmp_paths.specs.Namespaces.{AreBound};
    ghost use Rattle.xmp_paths.specs.LinePlaces.{HasLinePlaces};

    ghost Value = { Bindings };

    ghost coded = { bindings_code };

    ghost view = { λ n. record { lines = n.lines; hints = n.hints } };

    ghost invariant = { λ n. AreBound record { lines = n.lines; hints = n.hints } × HasLinePlaces n.places n.lines };
}

/// The places of lines with one more, whose prefix may be bound already.
fn with_line(
    alloc: Global,
    places: BTreeMap<Vec<u8>, usize>,
    lines: &[Hint],
    line: &Hint,
) -> Result<BTreeMap<Vec<u8>, usize>, Memory>
    requires { HasLinePlaces places lines.now }
    ensures { IfOk result (λ more. HasLinePlaces more (lines.now ++ line.now ∷ [])) }
{
    let prefix = line.prefix.as_slice();
    if places.contains_key(prefix) {
        return Ok(places);
    }
    let mut more = places;
    more.insert(Vec::from_slice(alloc, prefix)?, lines.len())?;
    Ok(more)
}

impl<'h> Namespaces<'h> {
    /// The known prefixes and the hints of a file, with no line yet. The time grows as n log n with
    /// the hints.
    pub fn of(alloc: Global, hints: &'h Hints) -> Result<Namespaces<'h>, Memory>
        ensures { IfOk result (λ n. n ≡ record { lines = []; hints = hints.now }) }
    {
        let hints = HintMap::new(alloc, hints.as_slice())?;
        Ok(Namespaces {
            lines: Sequence::new(alloc),
            places: BTreeMap::new(alloc),
            hints,
        })
    }

    /// Binds a prefix by a line, for what is looked up from now on.
    pub fn bound(self, alloc: Global, line: Hint) -> Result<Namespaces<'h>, Memory>
        requires { IsValidHint line }
        ensures { IfOk result (λ n. n ≡ record { lines = self.entry.lines ++ line ∷ []; hints = self.entry.hints }) }
    {
        let Namespaces {
            lines,
            places,
            hints,
        } = self;
        let places = with_line(alloc, places, lines.as_slice(), &line)?;
        let mut lines = lines;
        lines.push(line)?;
        Ok(Namespaces {
            lines,
            places,
            hints,
        })
    }

    /// Whether a line binds the prefix.
    pub fn is_bound(&self, prefix: &[u8]) -> bool
        ensures { result ≡ is_bound self.now prefix.now }
    {
        self.places.contains_key(prefix)
    }

    /// What the lines bind, in their order.
    pub fn lines(&self) -> &[Hint]
        ensures lines { result.now ≡ self.now.lines }
        ensures valid { AreBound self.now }
    {
        self.lines.as_slice()
    }

    /// The first line that binds the prefix.
    fn line_of(&self, prefix: &[u8]) -> Option<&Hint>
        ensures line { option_map (λ line. line.space) (option_copied result) ≡ space_in self.now.lines prefix.now }
        ensures valid { AreBound self.now }
    {
        match self.places.get(prefix) {
            Some(at) => self.lines.get(*at),
            None => None,
        }
    }

    /// The namespace of a prefix: a line's, else the known one, else the file's.
    pub fn space_of(&self, prefix: &[u8]) -> Option<&[u8]>
        ensures space { option_copied result ≡ space_of self.now prefix.now }
        ensures valid { AreBound self.now }
    {
        if let Some(line) = self.line_of(prefix) {
            return Some(line.space.as_slice());
        }
        if let Some(space) = known_space(prefix) {
            return Some(space);
        }
        self.hints.space_of(prefix)
    }
}
