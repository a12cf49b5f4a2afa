//! The first declaration of each namespace.

ghost use Rattle.std.specs.Prelude.{◌≡◌, ◌++◌, ◌∷◌, [], IfOk, OnOk, if◌then◌else◌};
ghost use Rattle.xml_grammar.specs.Trees.{first_hints};
ghost use Rattle.xmp_xml.specs.Marks.{first_mark, later_marks, marked};

use std::alloc::Global;
use xmp_values::{Hint, Memory, Sequence, TextSet};

/// For each hint whether its namespace stands there for the first time. The time grows as n log n
/// with their number.
fn first_marks(alloc: Global, all: &[Hint]) -> Result<Sequence<bool>, Memory>
    ensures { IfOk result (λ marks. marked marks all.now ≡ first_hints all.now) }
{
    let mut seen = TextSet::new(alloc);
    let mut marks = Sequence::new(alloc);
    for hint in all {
        let space = hint.space.as_slice();
        let is_new = seen.insert(space)?;
        marks.push(is_new)?;
    }
    Ok(marks)
}

/// The first mark, and those after it.
fn next_mark(marks: &[bool]) -> (bool, &[bool])
    ensures first { result.0 ≡ first_mark marks.now }
    ensures rest { result.1.now ≡ later_marks marks.now }
{
    match marks {
        [first, rest @ ..] => (*first, rest),
        [] => (false, marks),
    }
}

fn add_if(hints: &mut Sequence<Hint>, is_first: bool, hint: Hint) -> Result<(), Memory>
    ensures { OnOk result (hints.new ≡ (if is_first then hints.old ++ hint ∷ [] else hints.old)) }
{
    if is_first {
        hints.push(hint)?;
    }
    Ok(())
}

/// The hints with a mark, moved.
fn marked(alloc: Global, all: Sequence<Hint>, marks: &[bool]) -> Result<Sequence<Hint>, Memory>
    ensures { IfOk result (λ hs. hs ≡ marked marks.now all) }
{
    let mut firsts = Sequence::new(alloc);
    let mut rest = marks;
    for hint in all.into_vec() {
        let (is_first, more) = next_mark(rest);
        add_if(&mut firsts, is_first, hint)?;
        rest = more;
    }
    Ok(firsts)
}

/// The first hint of each namespace, in their order, moved.
pub fn first_hints(alloc: Global, all: Sequence<Hint>) -> Result<Sequence<Hint>, Memory>
    ensures { IfOk result (λ hs. hs ≡ first_hints all) }
{
    let marks = first_marks(alloc, all.as_slice())?;
    marked(alloc, all, marks.as_slice())
}
