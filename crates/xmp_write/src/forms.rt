//! Which properties of a tree are written.
ghost use Rattle.std.specs.Prelude.{◌≡◌, None, length};

use xmp_tree::Tree;
use xmp_values::Digits;

/// `count` properties of a tree from `first` on, after the note if it is written.
#[derive(Drop)]
pub struct Form {
    /// The place of the first property, from 0.
    pub first: usize,
    /// How many properties.
    pub count: usize,
    /// The digits of the note `xmpNote:HasExtendedXMP`, which names the rest of the tree
    /// (XMP Specification Part 3, 1.1.3.1).
    pub note: Option<Digits>,
}

impl Form {
    /// Every property, without a note.
    pub fn whole(tree: &Tree<'_>) -> Form
        ensures { result ≡ record { first = 0; count = length tree.now.props; note = None } }
    {
        Form {
            first: 0,
            count: tree.props.len(),
            note: None,
        }
    }
}
