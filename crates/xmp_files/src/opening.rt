//! What the packet of a file means.
ghost use Rattle.std.specs.Prelude.{◌≡◌};
ghost use Rattle.xmp_files.specs.Meanings.{no_meaning};
ghost use Rattle.xmp_files.specs.Openings.{IsMeant, JoinAnswer, OpenAnswer, TextAnswer};

use crate::faults::{gap_at, over_extended};
use crate::held::{Extended, Held};
use crate::meanings::meaning_of;
use std::alloc::Global;
use xmp_rdf::{Meaning, MergeStop, merge};
use xmp_tree::empty;
use xmp_values::{Fault, FaultStop, Hints, Part, Rule, Sequence};

/// A file whose packet was read. It borrows what is kept of the file.
#[derive(Drop)]
pub struct Opened<'h> {
    pub meaning: Meaning<'h>,
    /// Whether an extended text was joined to the main packet.
    pub joined: bool,
}

/// What a file without a packet means. It takes no memory.
fn no_meaning<'p>(alloc: Global) -> Meaning<'p>
    ensures { result ≡ no_meaning }
{
    Meaning {
        tree: empty(alloc),
        hints: Hints::new(alloc),
        note: None,
        places: Sequence::new(alloc),
    }
}

/// What the main packet and an extended text mean together.
fn with_text<'h>(
    alloc: Global,
    meaning: Meaning<'h>,
    text: &'h [u8],
) -> Result<Opened<'h>, FaultStop>
    ensures { TextAnswer text.now meaning.entry result }
{
    let more = match meaning_of(alloc, text) {
        Ok(more) => more,
        Err(stop) => return Err(stop.within(Part::Extended)),
    };
    match merge(alloc, meaning, more) {
        Ok(meaning) => Ok(Opened {
            meaning,
            joined: true,
        }),
        Err(MergeStop::Twice(place)) => {
            Err(FaultStop::Fault(Fault::at(Rule::Twice, Part::Extended, place)))
        }
        Err(MergeStop::Memory) => Err(FaultStop::Memory),
    }
}

/// What a file means whose main packet means this: the extended text, if there is one, is joined.
fn joined<'h>(alloc: Global, held: &'h Held, meaning: Meaning<'h>) -> Result<Opened<'h>, FaultStop>
    ensures { JoinAnswer held.now meaning.entry result }
{
    match held.extended() {
        None => Ok(Opened {
            meaning,
            joined: false,
        }),
        Some(Extended::Joined(text)) => with_text(alloc, meaning, text.as_slice()),
        Some(Extended::TooLong(full)) => Err(FaultStop::Fault(over_extended(*full))),
        Some(Extended::Gap(place)) => Err(FaultStop::Fault(gap_at(*place))),
    }
}

/// What a file means, or the first fault: of the main packet's XML, else of its RDF, and then those of the extended
/// text, at last a property that both have. It borrows the texts.
pub fn read_file<'h>(alloc: Global, held: &'h Held) -> Result<Opened<'h>, FaultStop>
    // The answer is the one step of what is kept of the file, unless memory runs out.
    ensures { OpenAnswer held.now result }
{
    match held.text() {
        Some(text) => match meaning_of(alloc, text) {
            Ok(meaning) => joined(alloc, held, meaning),
            Err(stop) => Err(stop.within(Part::Main)),
        },
        None => joined(alloc, held, no_meaning(alloc)),
    }
}
