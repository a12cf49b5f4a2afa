//! Relocating a JPEG file whose tree is too long for a segment: as many first properties stand in the main packet as
//! fit, after a note that names the extended text of the others (XMP Specification Part 3, 1.1.3.1).
ghost use Rattle.std.specs.Prelude.{◌≡◌, ◌+◌, ◌≤◌, ◌<◌, ◌^◌, ◌++◌, length, IfOk, OnOk, Some, flat_map};
ghost use Rattle.jpeg_regions.specs.Cutting.{Tiles};
ghost use Rattle.jpeg_regions.specs.Jpeg.{text, portion_payloads};
ghost use Rattle.jpeg_extended.specs.FromDesk.{ArePicked};
ghost use Rattle.jpeg_extended.specs.Tiling.{limit};
ghost use Rattle.jpeg_extended.specs.Written.{name_text, portion_count, segment_len};
ghost use Rattle.jpeg_relocation.specs.NewSegments.{main_segment, portion_segments};
ghost use Rattle.xmp_write.specs.Splits.{Tells, rest_form, text_len};
ghost use Rattle.xmp_files.specs.Plans.{front_least, front_packet, named_front, over_segment, rest_text, segments_text};
ghost use Rattle.xmp_files.specs.Planneds.{DivideAnswer, ExchangeLies, portion_segment};

use crate::faults::{PACKET_LIMIT, over_extended};
use crate::plans::{Exchange, WRAPPER};
use crate::relocating::{SEGMENT_LIMIT, main_segment, put_among, segment_padded};
use jpeg_extended::{name_of, portion_count, portion_into, segment_len};
use jpeg_regions::Regions;
use std::alloc::Global;
use xmp_base::FileSpan;
use xmp_tree::Tree;
use xmp_values::{Bytes, Digits, Fault, FaultStop, Hints, Memory, Part, Rule};
use xmp_write::{Form, Prefixes, Split, SplitStop, write_into};

/// Even the packet of the note without a property, of this least length, is too long for a segment.
fn over_segment(least: u64) -> Fault
    ensures { result ≡ over_segment least }
{
    Fault {
        x: least,
        y: SEGMENT_LIMIT,
        ..Fault::at(Rule::SegmentLimit, Part::Main, 0)
    }
}

/// The text, of this length, of the properties from number `first` on.
fn rest_text(
    alloc: Global,
    tree: &Tree<'_>,
    hints: &Hints,
    first: usize,
    len: usize,
) -> Result<Bytes, Memory>
    requires part { first ≤ length tree.now.props }
    requires room { len ≡ text_len tree.now hints.now (rest_form tree.now first) }
    ensures { IfOk result (λ bytes. bytes ≡ rest_text tree.now hints.now first) }
{
    let form = Form {
        first,
        count: tree.props.len() - first,
        note: None,
    };
    let prefixes = Prefixes::of(alloc, tree, hints, &form)?;
    let mut bytes = Bytes::from_vec(vec![in alloc; 0; len]?);
    write_into(tree, &prefixes, &form, bytes.as_mut_slice());
    Ok(bytes)
}

/// The main segment of the note and the first properties, whose text has this length.
fn front_segment(
    alloc: Global,
    tree: &Tree<'_>,
    hints: &Hints,
    form: &Form,
    len: u64,
    first: usize,
) -> Result<Vec<u8>, Memory>
    requires part { first ≤ length tree.now.props }
    requires named { form.now ≡ named_front tree.now hints.now first }
    requires front { 73 + len ≡ front_least tree.now hints.now first }
    requires short { 73 + len ≤ 65502 }
    ensures { IfOk result (λ segment. segment.items ≡ text (main_segment (front_packet tree.now hints.now first))) }
{
    let prefixes = Prefixes::of(alloc, tree, hints, form)?;
    let padded = segment_padded(WRAPPER + len) as usize;
    main_segment(alloc, tree, &prefixes, form, padded)
}

/// Writes the segment of portion `k`, from 0, of an extended text, whose name this is.
#[tactic(auto, unfolding(crate::specs::Planneds::portion_segment))]
fn put_portion(extended: &[u8], name: &Digits, k: usize, to: &mut [u8])
    requires within { length extended.now ≤ limit }
    requires named { name.now ≡ name_text extended.now }
    requires there { k < portion_count (length extended.now) }
    requires room { length to.old ≡ segment_len (length extended.now) k }
    ensures { to.new ≡ portion_segment extended.now k }
{
    portion_into(extended, name, k, to);
}

/// Adds that segment, which has this length.
fn push_portion(
    segments: &mut Vec<u8>,
    extended: &[u8],
    name: &Digits,
    k: usize,
    len: usize,
) -> Result<(), Memory>
    requires within { length extended.now ≤ limit }
    requires named { name.now ≡ name_text extended.now }
    requires there { k < portion_count (length extended.now) }
    requires size { len ≡ segment_len (length extended.now) k }
    requires short { length segments.old.items + len < 2 ^ 64 }
    ensures { OnOk result (segments.new.items ≡ segments.old.items ++ portion_segment extended.now k) }
{
    let start = segments.len();
    segments.resize(start + len, 0)?;
    put_portion(extended, name, k, &mut segments.as_mut_slice()[start..]);
    Ok(())
}

/// Adds the segments of the portions of an extended text, whose name this is.
fn push_portions(segments: &mut Vec<u8>, extended: &[u8], name: &Digits) -> Result<(), Memory>
    requires within { length extended.now ≤ limit }
    requires named { name.now ≡ name_text extended.now }
    requires short { length segments.old.items ≤ 65537 }
    ensures { OnOk result (segments.new.items ≡ segments.old.items ++ flat_map text (portion_segments extended.now)) }
{
    for k in 0..portion_count(extended.len()) {
        let len = segment_len(extended.len(), k);
        push_portion(segments, extended, name, k, len)?;
    }
    Ok(())
}

/// The segments of a tree in two texts.
fn both_segments(
    alloc: Global,
    tree: &Tree<'_>,
    hints: &Hints,
    split: &Split,
) -> Result<Vec<u8>, Memory>
    requires told { Tells tree.now hints.now 65502 split.now }
    requires short { split.now.rest ≤ limit }
    ensures { IfOk result (λ segments. segments.items ≡ segments_text (front_packet tree.now hints.now split.now.count) (Some (rest_text tree.now hints.now split.now.count))) }
{
    let rest = rest_text(alloc, tree, hints, split.count, split.rest as usize)?;
    let form = Form {
        first: 0,
        count: split.count,
        note: Some(name_of(alloc, rest.as_slice())?),
    };
    let mut segments = front_segment(alloc, tree, hints, &form, split.front, split.count)?;
    if let Some(name) = &form.note {
        push_portions(&mut segments, rest.as_slice(), name)?;
    }
    Ok(segments)
}

/// The new file with the tree in two texts.
pub fn with_both(
    alloc: Global,
    size: u64,
    regions: &Regions,
    joined: &[FileSpan],
    tree: &Tree<'_>,
    hints: &Hints,
) -> Result<Exchange, FaultStop>
    requires tiles { Tiles 2 size regions.now }
    requires among { ArePicked joined.now (portion_payloads regions.now) }
    ensures step { DivideAnswer regions.now joined.now tree.now hints.now result }
    ensures lies { IfOk result (ExchangeLies size) }
{
    let split = match Split::of(alloc, tree, hints, SEGMENT_LIMIT) {
        Ok(split) => split,
        Err(SplitStop::TooLong(least)) => return Err(FaultStop::Fault(over_segment(least))),
        Err(SplitStop::Memory) => return Err(FaultStop::Memory),
    };
    if split.rest > PACKET_LIMIT {
        return Err(FaultStop::Fault(over_extended(split.rest)));
    }
    let segments = both_segments(alloc, tree, hints, &split)?;
    put_among(alloc, size, regions, joined, Bytes::from_vec(segments))
}
