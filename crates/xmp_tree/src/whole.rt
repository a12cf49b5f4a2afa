ghost use Rattle.std.specs.Prelude.{◌≡◌, [], ◌↔◌, IsTrue, IfOk, MatchOption};

use crate::checks::is_well_formed;
use crate::copies::{copy_members, copy_text};
use crate::equals::equal_members;
use crate::nested::Members;
use std::alloc::Global;
use std::marker::Model;
use xmp_values::{Memory, Sequence, Text};

/// A tree of properties (ISO 16684-1, clause 6): an about, and a list of names with values. It is
/// well-formed wherever it is, so that the literal asks for a proof; `checked` tests in its place.
#[derive(Drop)]
pub struct Tree<'p> {
    pub about: Text<'p>,
    pub props: Members<'p>,
}

impl<'p> Model for Tree<'p> {
    ghost use Rattle.xmp_tree.specs.Parts.{Parts, parts_code};

    ghost Value = { Parts };

    ghost coded = { parts_code };

    ghost use Rattle.xmp_tree.specs.Wf.{Wf};

    ghost view = { λ t. record { about = t.about; props = t.props } };

    ghost invariant = { λ t. Wf record { about = t.about; props = t.props } };
}

impl<'p> Tree<'p> {
    ghost use Rattle.xmp_tree.specs.Wf.{Wf};

    /// The tree of an about and properties, if it is well-formed.
    pub fn checked(
        alloc: Global,
        about: Text<'p>,
        props: Members<'p>,
    ) -> Result<Option<Tree<'p>>, Memory>
        ensures { IfOk result (λ tree. MatchOption tree (Wf record { about = about.entry; props = props.entry } → ⊥) (λ t. t ≡ record { about = about.entry; props = props.entry })) }
    {
        if is_well_formed(alloc, &about, props.as_slice())? {
            return Ok(Some(Tree { about, props }));
        }
        Ok(None)
    }
}

/// The empty tree: no about, no property. It takes no memory.
pub fn empty<'p>(alloc: Global) -> Tree<'p>
    ensures { result ≡ record { about = []; props = [] } }
{
    Tree {
        about: Text::raw(b"".as_slice()),
        props: Sequence::new(alloc),
    }
}

/// Whether two trees have equal abouts and equal properties in the same order, their values and
/// qualifiers included. It takes no memory.
pub fn equal(a: &Tree<'_>, b: &Tree<'_>) -> bool
    ensures { IsTrue result ↔ (a.now ≡ b.now) }
{
    a.about.same_text(&b.about) && equal_members(a.props.as_slice(), b.props.as_slice())
}

/// An equal tree that owns all its texts.
pub fn copy<'q>(alloc: Global, tree: &Tree<'_>) -> Result<Tree<'q>, Memory>
    ensures { IfOk result (λ c. c ≡ tree.now) }
{
    let about = copy_text(alloc, &tree.about)?;
    let props = copy_members(alloc, tree.props.as_slice())?;
    Ok(Tree { about, props })
}
