//! Loading a JPEG file: its regions, its main packet, and its extended text.
ghost use Rattle.std.specs.Prelude.{◌≡◌, ◌+◌, ◌≤◌, length, [], None, Some, IfOk, IsTrue};
ghost use Rattle.xmp_base.specs.Device.{Told, bytes_of, is_known, len_of};
ghost use Rattle.jpeg_regions.specs.Jpeg.{Jpeg};
ghost use Rattle.jpeg_regions.specs.Cutting.{Tiles};
ghost use Rattle.jpeg_extended.specs.FromDesk.{AreInside};
ghost use Rattle.xmp_files.specs.Faults.{packet_limit};
ghost use Rattle.xmp_files.specs.Kinds.{kind_of};
ghost use Rattle.xmp_files.specs.Helds.{piece_of};
ghost use Rattle.xmp_files.specs.Loads.{SizedCall, ExtendedCall, JoinedCall, KeptCall, IsNoteFor, cut_stop, join_stop};
ghost use Rattle.xmp_files.specs.Photographs.{main_packet, packet_range};

use crate::faults::{PACKET_LIMIT, over_packet};
use crate::held::{Extended, ExtendedText, Held, MainPacket, Need};
use crate::kinds::Kind;
use crate::meanings::note_of;
use jpeg_extended::{ExtStop, JoinStop, joined_from, named_from};
use jpeg_regions::{CutStop, Regions};
use std::alloc::Global;
use xmp_base::{Desk, FileSpan, WindowStop, window};
use xmp_values::{Digits, Fault, FileStop, Memory, Part};

/// The bytes of a payload before its packet: the signature.
const SIGNATURE: u64 = 29;

/// What stands of a payload after the packet's signature.
fn packet_range(payload: FileSpan) -> FileSpan
    ensures { result ≡ packet_range payload }
{
    FileSpan {
        start: payload.start.saturating_add(SIGNATURE).min(payload.end),
        end: payload.end,
    }
}

/// Why a file that isn't cut is refused.
fn cut_stop(stop: CutStop) -> FileStop
    ensures { result ≡ cut_stop stop }
{
    match stop {
        CutStop::Fault(rule, place) => FileStop::Fault(Fault::at(rule, Part::File, place)),
        CutStop::Device => FileStop::Device,
        CutStop::Memory => FileStop::Memory,
    }
}

/// The name of the extended text, by the note of the packet, which is read where there is a portion at all.
fn note_for(alloc: Global, payloads: &[FileSpan], packet: &[u8]) -> Result<Option<Digits>, Memory>
    ensures { IfOk result (IsNoteFor payloads.now packet.now) }
{
    if payloads.is_empty() {
        return Ok(None);
    }
    note_of(alloc, packet)
}

/// What a file has without an extended text.
fn no_text(alloc: Global) -> ExtendedText
    ensures portions { result.portions.items ≡ [] }
    ensures joined { result.joined ≡ None }
{
    ExtendedText {
        portions: Vec::new(alloc),
        joined: None,
    }
}

/// Why portions weren't found or read: a failure of the device, or want of memory.
fn join_stop(stop: JoinStop) -> FileStop
    ensures { result ≡ join_stop stop }
{
    match stop {
        JoinStop::Device => FileStop::Device,
        JoinStop::Portions(_) => FileStop::Memory,
    }
}

/// What the portions of a known file of this length give, whose payloads are `portions`.
fn joined_text<D: Desk>(
    alloc: Global,
    desk: &mut D,
    name: &str,
    size: u64,
    portions: &[FileSpan],
    note: &Digits,
) -> Result<Option<Extended>, FileStop>
    requires known { IsTrue (is_known (D.state desk.old) name.now) }
    requires len { len_of (D.state desk.old) name.now ≡ size }
    requires told { Told (D.state desk.old).files (λ files. length (bytes_of files name.now) ≡ size) }
    requires inside { AreInside size portions.now }
    ensures call { JoinedCall (D.state desk.old) (D.state desk.new) name.now portions.now note.now result }
{
    match joined_from(alloc, desk, name, size, portions, note) {
        Ok(Some(text)) => Ok(Some(Extended::Joined(text))),
        Ok(None) => Ok(None),
        Err(JoinStop::Portions(ExtStop::TooLong(full))) => Ok(Some(Extended::TooLong(full))),
        Err(JoinStop::Portions(ExtStop::Gap(place))) => Ok(Some(Extended::Gap(place))),
        Err(JoinStop::Portions(ExtStop::Memory)) => Err(FileStop::Memory),
        Err(JoinStop::Device) => Err(FileStop::Device),
    }
}

/// The extended text of this name among the portions of a known file of this length.
fn extended_text<D: Desk>(
    alloc: Global,
    desk: &mut D,
    name: &str,
    size: u64,
    payloads: &[FileSpan],
    note: &Digits,
) -> Result<ExtendedText, FileStop>
    requires known { IsTrue (is_known (D.state desk.old) name.now) }
    requires len { len_of (D.state desk.old) name.now ≡ size }
    requires told { Told (D.state desk.old).files (λ files. length (bytes_of files name.now) ≡ size) }
    requires inside { AreInside size payloads.now }
    ensures call { ExtendedCall (D.state desk.old) (D.state desk.new) name.now size payloads.now note.now result }
{
    let portions = match named_from(alloc, desk, name, size, payloads, note) {
        Ok(portions) => portions,
        Err(stop) => return Err(join_stop(stop)),
    };
    match joined_text(alloc, desk, name, size, portions.as_slice(), note) {
        Ok(joined) => Ok(ExtendedText { portions, joined }),
        Err(stop) => Err(stop),
    }
}

/// What is kept of a known JPEG file of this length whose regions and packet these are.
fn load_extended<D: Desk>(
    alloc: Global,
    desk: &mut D,
    name: &str,
    size: u64,
    need: Need,
    regions: Regions,
    packet: MainPacket,
) -> Result<Held, FileStop>
    requires known { IsTrue (is_known (D.state desk.old) name.now) }
    requires len { len_of (D.state desk.old) name.now ≡ size }
    requires told { Told (D.state desk.old).files (λ files. length (bytes_of files name.now) ≡ size) }
    requires kind { Told (D.state desk.old).files (λ files. kind_of (bytes_of files name.now) ≡ Some Kind.Jpeg) }
    requires jpeg { Told (D.state desk.old).files (λ files. Jpeg (bytes_of files name.now) regions) }
    requires tiles { Tiles 2 size regions }
    requires packet { Told (D.state desk.old).files (λ files. Some (piece_of packet) ≡ main_packet (bytes_of files name.now) regions) }
    requires lies { packet.at + length packet.bytes ≤ size }
    requires short { length packet.bytes ≤ packet_limit }
    ensures call { KeptCall need (D.state desk.old) (D.state desk.new) name.now size result }
{
    let payloads = match regions.portions(alloc) {
        Ok(payloads) => payloads,
        Err(Memory) => return Err(FileStop::Memory),
    };
    let listed = payloads.as_slice();
    let named = match note_for(alloc, listed, packet.bytes.as_slice()) {
        Ok(named) => named,
        Err(Memory) => return Err(FileStop::Memory),
    };
    let Some(note) = named else {
        let text = no_text(alloc);
        return Ok(Held::photograph(need, size, regions, Some(packet), text));
    };
    match extended_text(alloc, desk, name, size, listed, &note) {
        Ok(text) => Ok(Held::photograph(need, size, regions, Some(packet), text)),
        Err(stop) => Err(stop),
    }
}

/// What is kept of a known JPEG file of this length: its regions, the main packet, and the extended text that its note names.
pub fn load_photograph<D: Desk>(
    alloc: Global,
    desk: &mut D,
    name: &str,
    size: u64,
    need: Need,
) -> Result<Held, FileStop>
    requires known { IsTrue (is_known (D.state desk.old) name.now) }
    requires len { len_of (D.state desk.old) name.now ≡ size }
    requires told { Told (D.state desk.old).files (λ files. length (bytes_of files name.now) ≡ size) }
    requires kind { Told (D.state desk.old).files (λ files. kind_of (bytes_of files name.now) ≡ Some Kind.Jpeg) }
    ensures call { SizedCall need (D.state desk.old) (D.state desk.new) name.now size result }
{
    let regions = match Regions::cut_known(alloc, desk, name, size) {
        Ok(regions) => regions,
        Err(stop) => return Err(cut_stop(stop)),
    };
    let Some(payload) = regions.main() else {
        let text = no_text(alloc);
        return Ok(Held::photograph(need, size, regions, None, text));
    };
    let range = packet_range(payload);
    let len = range.end - range.start;
    if len > PACKET_LIMIT {
        return Err(FileStop::Fault(over_packet(len)));
    }
    match window(alloc, desk, name, range.start, len as usize) {
        Ok(bytes) => {
            let at = range.start;
            load_extended(
                alloc,
                desk,
                name,
                size,
                need,
                regions,
                MainPacket { at, bytes },
            )
        }
        Err(WindowStop::Device) => Err(FileStop::Device),
        Err(WindowStop::Memory) => Err(FileStop::Memory),
    }
}
