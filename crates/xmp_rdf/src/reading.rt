//! A document is read to what it means.
ghost use Rattle.xmp_values.specs.Stops.{place_of, Gives};
ghost use Rattle.xmp_rdf.specs.Meanings.{reading};

use crate::RdfStop;
use crate::meanings::Meaning;
use crate::parting::{Parted, note_digits};
use crate::tops::{Contents, root_contents};
use std::alloc::Global;
use xmp_tree::Tree;
use xmp_xml::Doc;

/// The levels of elements that a document has at most.
const MOST_LEVELS: u64 = 100;

/// The tree of a document, with the place of each property, its hints and its note; else the
/// first element in the order of the document that breaks a rule, with the least rule that it
/// breaks. The texts are those of the document, and no byte of them is copied; the hints are moved.
pub fn tree_of<'p>(alloc: Global, doc: Doc<'p>) -> Result<Meaning<'p>, RdfStop>
    // It is what the definitions give, unless memory runs out.
    ensures { Gives place_of result (reading doc.entry.root doc.entry.declared) }
{
    let Contents { about, parts } = root_contents(alloc, MOST_LEVELS, doc.root())?;
    let Parted {
        props,
        places,
        notes,
    } = parts;
    let tree = Tree { about, props };
    let hints = doc.into_declared();
    let note = note_digits(notes.as_slice());
    Ok(Meaning {
        tree,
        hints,
        note,
        places,
    })
}
