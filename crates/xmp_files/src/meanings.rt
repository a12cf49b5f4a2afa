//! What texts mean.
ghost use Rattle.std.specs.Prelude.{IfOk};
ghost use Rattle.xmp_files.specs.Meanings.{IsNoteOf};
ghost use Rattle.xmp_files.specs.Openings.{IsMeant};

use std::alloc::Global;
use xmp_packets::Packet;
use xmp_rdf::{Meaning, RdfStop, tree_of};
use xmp_values::{Digits, Memory, PlaceStop};
use xmp_xml::read;

/// What a text means, or the first fault of its XML, else of its RDF.
pub fn meaning_of<'p>(alloc: Global, text: &'p [u8]) -> Result<Meaning<'p>, PlaceStop>
    ensures { IsMeant text.now result }
{
    let doc = read(alloc, text)?;
    match tree_of(alloc, doc) {
        Ok(meaning) => Ok(meaning),
        Err(RdfStop::Fault(rule, place)) => Err(PlaceStop::Fault(rule, place)),
        Err(RdfStop::Memory) => Err(PlaceStop::Memory),
    }
}

/// The note of a packet, which names its extended text; none where the packet has a fault.
pub fn note_of(alloc: Global, payload: &[u8]) -> Result<Option<Digits>, Memory>
    ensures { IfOk result (IsNoteOf payload.now) }
{
    let text = &payload[..Packet::of(payload).text_len];
    match meaning_of(alloc, text) {
        Ok(meaning) => Ok(meaning.note),
        Err(PlaceStop::Fault(_, _)) => Ok(None),
        Err(PlaceStop::Memory) => Err(Memory),
    }
}
