//! Two meanings merged: that of a packet and that of its extended text.
ghost use Rattle.std.specs.Prelude.{◌≡◌, ◌<◌, ◌++◌, ◌∷◌, [], not, map, length, slice_index, None, IfOk, OnOk};
ghost use Rattle.std.specs.List.{list_any};
ghost use Rattle.xmp_tree.specs.Wf.{name_of, NamesDiffer};
ghost use Rattle.rdf_forms.specs.Words.{same_name};
ghost use Rattle.rdf_forms.specs.Entering.{Holds};
ghost use Rattle.xmp_values.specs.Stops.{Gives};
ghost use Rattle.rdf_forms.specs.Merging.{first_twice, both_trees, both, merged};
ghost use Rattle.xmp_rdf.specs.Merging.{twice_of};

use crate::hints::merge_hints;
use crate::meanings::Meaning;
use std::alloc::Global;
use xmp_tree::{Member, Tree};
use xmp_values::{Memory, NameSet};

/// Why two meanings don't merge.
#[derive(Clone, Copy, Debug, PartialEq, Eq, Drop)]
pub enum MergeStop {
    /// A property stands in both. It is the second's first such, by its place in bytes.
    Twice(u64),
    /// Out of memory.
    Memory,
}

impl From<Memory> for MergeStop {
    ghost use Rattle.xmp_rdf.specs.declared.merging.MergeStop.TheVariants as stop;

    ghost from_gives = { λ _ e. e ≡ stop.Memory };

    fn from(_memory: Memory) -> MergeStop {
        MergeStop::Memory
    }
}

/// Enters the name of a property, and tells whether it is new.
fn enter<'e>(names: &mut NameSet<'e>, prop: &'e Member<'_>) -> Result<bool, Memory>
    ensures is_new { IfOk result (λ is_new. is_new ≡ not (list_any (same_name (name_of prop.now)) names.old)) }
    ensures holds { OnOk result (Holds names.new (names.old ++ name_of prop.now ∷ [])) }
{
    let is_new = names.insert(prop.name.space.bytes(), prop.name.local.bytes())?;
    Ok(is_new)
}

fn names_in<'e>(alloc: Global, props: &'e [Member<'_>]) -> Result<NameSet<'e>, Memory>
    ensures { IfOk result (λ names. Holds names (map name_of props.now)) }
{
    let mut names = NameSet::new(alloc);
    for prop in props {
        enter(&mut names, prop)?;
    }
    Ok(names)
}

/// The number of the first property of `more` that stands in `main`.
fn first_twice(
    alloc: Global,
    main: &[Member<'_>],
    more: &[Member<'_>],
) -> Result<Option<usize>, Memory>
    requires { NamesDiffer more.now }
    ensures { IfOk result (λ at. at ≡ first_twice main.now more.now) }
{
    let mut names = names_in(alloc, main)?;
    for (at, prop) in more.iter().enumerate() {
        if !enter(&mut names, prop)? {
            return Ok(Some(at));
        }
    }
    Ok(None)
}

/// The same of two trees.
fn tree_twice(alloc: Global, main: &Tree<'_>, more: &Tree<'_>) -> Result<Option<usize>, Memory>
    ensures { IfOk result (λ at. at ≡ first_twice main.now.props more.now.props) }
{
    first_twice(alloc, main.props.as_slice(), more.props.as_slice())
}

/// The properties of `more` after those of `main`, under main's about.
fn merge_trees<'p>(main: Tree<'p>, more: Tree<'p>) -> Result<Tree<'p>, Memory>
    requires { first_twice main.props more.props ≡ None }
    ensures { IfOk result (λ t. t ≡ both_trees main.entry more.entry) }
{
    let Tree { about, mut props } = main;
    let Tree {
        about: _,
        props: others,
    } = more;
    props.append(others)?;
    Ok(Tree { about, props })
}

/// The place of a property.
fn place_of(meaning: &Meaning<'_>, at: usize) -> u64
    requires { at < length meaning.now.tree.props }
    ensures { result ≡ slice_index meaning.now.places at }
{
    meaning.places.as_slice()[at]
}

/// Both, where no property stands in both.
fn both<'p>(alloc: Global, main: Meaning<'p>, more: Meaning<'p>) -> Result<Meaning<'p>, Memory>
    requires { first_twice main.tree.props more.tree.props ≡ None }
    ensures { IfOk result (λ m. m ≡ both main.entry more.entry) }
{
    let tree = merge_trees(main.tree, more.tree)?;
    let hints = merge_hints(alloc, main.hints, more.hints)?;
    let mut places = main.places;
    places.append(more.places)?;
    Ok(Meaning {
        tree,
        hints,
        note: main.note,
        places,
    })
}

/// The properties, places and new hints of `more` after those of `main`, whose about and note
/// it has. The parts are moved. The time grows as n log n with the number of names and hints.
pub fn merge<'p>(
    alloc: Global,
    main: Meaning<'p>,
    more: Meaning<'p>,
) -> Result<Meaning<'p>, MergeStop>
    ensures { Gives twice_of result (merged main.entry more.entry) }
{
    if let Some(at) = tree_twice(alloc, &main.tree, &more.tree)? {
        return Err(MergeStop::Twice(place_of(&more, at)));
    }
    Ok(both(alloc, main, more)?)
}
