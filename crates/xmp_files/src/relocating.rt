//! Relocating a JPEG file: its regions stay, and the main packet and the joined portions are written anew
//! (XMP Specification Part 3, 1.1.3).
ghost use Rattle.std.specs.Prelude.{◌≡◌, ◌+◌, ◌≤◌, ◌<◌, ◌^◌, ◌++◌, [], ◌∷◌, length, map, All, IfOk, OnOk, None};
ghost use Rattle.jpeg_regions.specs.Cutting.{Tiles};
ghost use Rattle.jpeg_regions.specs.Jpeg.{text, portion_payloads};
ghost use Rattle.jpeg_extended.specs.FromDesk.{ArePicked};
ghost use Rattle.jpeg_relocation.specs.NewSegments.{main_segment};
ghost use Rattle.jpeg_relocation.specs.Runs.{runs};
ghost use Rattle.jpeg_relocation.specs.Relocation.{before, after};
ghost use Rattle.xmp_write.specs.WrittenPackets.{least_len, packet};
ghost use Rattle.xmp_files.specs.NewFiles.{PartLies, parts_at, kept_parts, old_parts};
ghost use Rattle.xmp_files.specs.Planning.{parts_len};
ghost use Rattle.xmp_files.specs.Plans.{after_pictures, over_out, segment_padded, segments_text, told};
ghost use Rattle.xmp_files.specs.Planneds.{AmongAnswer, ExchangeLies, PartsAnswer};

use crate::faults::FILE_LIMIT;
use crate::parts::{FilePart, NewFile, span};
use crate::plans::{Exchange, PADDING};
use jpeg_regions::Regions;
use jpeg_relocation::{KeptRuns, MovedPictures};
use std::alloc::Global;
use xmp_base::FileSpan;
use xmp_tree::Tree;
use xmp_values::{Bytes, Fault, FaultStop, Memory, Part, Rule};
use xmp_write::{Form, Prefixes, packet_into};

/// The most bytes of a packet in a segment: 2 of the length and 29 of the signature are counted with it.
pub const SEGMENT_LIMIT: u64 = 65_502;

const SIGNATURE: &[u8] = b"http://ns.adobe.com/xap/1.0/\0";

/// How long the packet of a segment is, by its least length.
pub fn segment_padded(least: u64) -> u64
    requires { least ≤ 65502 }
    ensures { result ≡ segment_padded least }
{
    (least + PADDING).min(SEGMENT_LIMIT)
}

/// Adds a packet of this length.
pub fn push_packet(
    segments: &mut Vec<u8>,
    tree: &Tree<'_>,
    prefixes: &Prefixes<'_>,
    form: &Form,
    len: usize,
) -> Result<(), Memory>
    requires part { form.now.first + form.now.count ≤ length tree.now.props }
    requires room { least_len prefixes.now tree.now form.now ≤ len }
    requires short { length segments.old.items + len < 2 ^ 64 }
    ensures { OnOk result (segments.new.items ≡ segments.old.items ++ packet prefixes.now tree.now form.now len) }
{
    let start = segments.len();
    segments.resize(start + len, 0)?;
    packet_into(tree, prefixes, form, &mut segments.as_mut_slice()[start..]);
    Ok(())
}

/// The main segment: `FF E1 | length, 2 bytes, counting itself | signature | packet`.
pub fn main_segment(
    alloc: Global,
    tree: &Tree<'_>,
    prefixes: &Prefixes<'_>,
    form: &Form,
    len: usize,
) -> Result<Vec<u8>, Memory>
    requires part { form.now.first + form.now.count ≤ length tree.now.props }
    requires room { least_len prefixes.now tree.now form.now ≤ len }
    requires short { len ≤ 65502 }
    ensures { IfOk result (λ segment. segment.items ≡ text (main_segment (packet prefixes.now tree.now form.now len))) }
{
    let mut segment = Vec::with_capacity(alloc, 33 + len)?;
    segment.extend_from_slice(&[0xff, 0xe1])?;
    segment.extend_from_slice(&((31 + len) as u16).to_be_bytes())?;
    segment.extend_from_slice(SIGNATURE)?;
    push_packet(&mut segment, tree, prefixes, form, len)?;
    Ok(segment)
}

/// Adds ranges of the old file.
fn push_runs(parts: &mut Vec<FilePart>, runs: &[FileSpan]) -> Result<(), Memory>
    ensures { OnOk result (parts.new.items ≡ parts.old.items ++ old_parts runs.now) }
{
    for run in runs {
        parts.push(FilePart::Old(*run))?;
    }
    Ok(())
}

/// The parts of a new file: FF D8, what stands before the place, so many new bytes, and what stands after it.
fn parts_around(alloc: Global, kept: &KeptRuns, count: u64) -> Result<Vec<FilePart>, Memory>
    ensures { IfOk result (λ parts. parts.items ≡ kept_parts kept.now.before.items kept.now.after.items count) }
{
    let mut parts = Vec::new(alloc);
    parts.push(FilePart::Old(span(0, 2)))?;
    push_runs(&mut parts, kept.before.as_slice())?;
    parts.push(FilePart::New(span(0, count)))?;
    push_runs(&mut parts, kept.after.as_slice())?;
    Ok(parts)
}

/// How many bytes parts have, or the greatest number.
fn total_len(parts: &[FilePart], size: u64, bytes: &[u8]) -> u64
    requires { All (PartLies size (length bytes.now)) parts.now }
    ensures { result ≡ told (parts_len (parts_at bytes.now parts.now)) }
{
    let mut total: u64 = 0;
    for part in parts {
        total = total.saturating_add(part.len());
    }
    total
}

/// The index of a multi-picture file tells places of pictures that would move.
fn after_pictures(moved: MovedPictures) -> Fault
    ensures { result ≡ after_pictures moved }
{
    Fault {
        x: moved.old,
        y: moved.new,
        ..Fault::at(Rule::AfterMultiPicture, Part::File, moved.start)
    }
}

/// The new file is longer than its limit.
fn over_out(size: u64) -> Fault
    ensures { result ≡ over_out size }
{
    Fault {
        x: size,
        y: FILE_LIMIT,
        ..Fault::at(Rule::OutLimit, Part::File, 0)
    }
}

/// The new file of these parts, with ranges of an old one of `size` bytes, or its length is over the limit.
pub fn within_out(size: u64, parts: Vec<FilePart>, bytes: Bytes) -> Result<Exchange, FaultStop>
    requires { All (PartLies size (length bytes)) parts.items }
    ensures step { PartsAnswer (parts_at bytes parts.items) result }
    ensures lies { IfOk result (ExchangeLies size) }
{
    let len = total_len(parts.as_slice(), size, bytes.as_slice());
    if len > FILE_LIMIT {
        return Err(FaultStop::Fault(over_out(len)));
    }
    Ok(Exchange::Anew(NewFile { parts, bytes, len }))
}

/// New bytes among the regions of a JPEG file of `size` bytes, in which no main packet and no joined portion stays, or
/// why they don't come there.
pub fn put_among(
    alloc: Global,
    size: u64,
    regions: &Regions,
    joined: &[FileSpan],
    bytes: Bytes,
) -> Result<Exchange, FaultStop>
    requires tiles { Tiles 2 size regions.now }
    requires among { ArePicked joined.now (portion_payloads regions.now) }
    ensures step { AmongAnswer regions.now joined.now bytes result }
    ensures lies { IfOk result (ExchangeLies size) }
{
    let kept = KeptRuns::of(alloc, regions, joined, size)?;
    let count = bytes.len() as u64;
    if let Some(moved) = kept.moved_pictures(count) {
        return Err(FaultStop::Fault(after_pictures(moved)));
    }
    let parts = parts_around(alloc, &kept, count)?;
    within_out(size, parts, bytes)
}

/// The new file with a main packet of the whole tree, of this least length.
pub fn with_packet(
    alloc: Global,
    size: u64,
    regions: &Regions,
    joined: &[FileSpan],
    tree: &Tree<'_>,
    prefixes: &Prefixes<'_>,
    form: &Form,
    least: u64,
) -> Result<Exchange, FaultStop>
    requires tiles { Tiles 2 size regions.now }
    requires among { ArePicked joined.now (portion_payloads regions.now) }
    requires part { form.now.first + form.now.count ≤ length tree.now.props }
    requires least { least ≡ least_len prefixes.now tree.now form.now }
    requires short { least ≤ 65502 }
    ensures step { AmongAnswer regions.now joined.now (segments_text (packet prefixes.now tree.now form.now (segment_padded least)) None) result }
    ensures lies { IfOk result (ExchangeLies size) }
{
    let len = segment_padded(least) as usize;
    let segment = main_segment(alloc, tree, prefixes, form, len)?;
    put_among(alloc, size, regions, joined, Bytes::from_vec(segment))
}
