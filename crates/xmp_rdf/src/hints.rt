//! Hints of two lists in one.
ghost use Rattle.std.specs.Prelude.{◌≡◌, ◌++◌, not, map, filter, IfOk};
ghost use Rattle.std.specs.List.{list_any};
ghost use Rattle.std.specs.Str.{bytes_eq};
ghost use Rattle.xmp_values.specs.declared.hints.Hint.{Hint as HintView};
ghost use Rattle.rdf_forms.specs.Merging.{new_hints};
ghost use Rattle.xmp_rdf.specs.SpaceSets.{HasSpaces};

use std::alloc::Global;
use xmp_values::{Hint, Hints, Memory, Sequence, TextSet};

/// The namespaces of hints.
fn spaces_of<'h>(alloc: Global, hints: &'h Hints) -> Result<TextSet<'h>, Memory>
    ensures { IfOk result (λ set. HasSpaces set hints.now) }
{
    let mut spaces = TextSet::new(alloc);
    for hint in hints.as_slice() {
        spaces.insert(hint.space.as_slice())?;
    }
    Ok(spaces)
}

fn is_new(spaces: &TextSet<'_>, hint: &Hint) -> bool
    ensures { result ≡ not (list_any (bytes_eq hint.now.space) spaces.now) }
{
    !spaces.contains(hint.space.as_slice())
}

/// The hints of other namespaces, moved.
fn hints_apart(spaces: &TextSet<'_>, hints: Hints) -> Sequence<Hint>
    ensures { result ≡ filter (λ (h : HintView). not (list_any (bytes_eq h.space) spaces.now)) hints }
{
    let mut apart = hints.into_sequence().into_vec();
    apart.retain(|hint| is_new(spaces, hint));
    Sequence::from_vec(apart)
}

/// The hints of `more` whose namespaces `main` lacks, moved.
fn new_hints(alloc: Global, main: &Hints, more: Hints) -> Result<Sequence<Hint>, Memory>
    ensures { IfOk result (λ hs. hs ≡ new_hints main.now more) }
{
    let spaces = spaces_of(alloc, main)?;
    Ok(hints_apart(&spaces, more))
}

/// The hints of `main`, and after them those of `more` whose namespaces are new.
#[tactic(auto, using(crate::proofs::HintSets::with_none, crate::proofs::HintSets::after_none))]
pub fn merge_hints(alloc: Global, main: Hints, more: Hints) -> Result<Hints, Memory>
    ensures { IfOk result (λ hs. hs ≡ main ++ new_hints main more) }
{
    if more.len() == 0 {
        return Ok(main);
    }
    if main.len() == 0 {
        return Ok(more);
    }
    let new = new_hints(alloc, &main, more)?;
    let mut list = main.into_sequence();
    list.append(new)?;
    Ok(Hints::from_list(list))
}
