//! Relocating a TIFF or BigTIFF file: its packet is put at the end, and a count and an offset tell it
//! (TIFF 6.0, section 2; XMP Specification Part 3, TIFF).
ghost use Rattle.std.specs.Prelude.{◌≡◌, ◌+◌, ◌≤◌, IfOk, length, false};
ghost use Rattle.tiff_relocation.specs.Moves.{Lies, MayTell, has_no_room};
ghost use Rattle.xmp_write.specs.WrittenPackets.{least_len, packet};
ghost use Rattle.xmp_files.specs.NewFiles.{AreNew, last_parts};
ghost use Rattle.xmp_files.specs.Plans.{over_entries, over_offsets};
ghost use Rattle.xmp_files.specs.Planneds.{ExchangeLies, LastAnswer};

use crate::parts::{FilePart, span};
use crate::plans::Exchange;
use crate::relocating::{push_packet, within_out};
use std::alloc::Global;
use tiff_dirs::Dirs;
use tiff_relocation::Relocation;
use xmp_tree::Tree;
use xmp_values::{Bytes, Fault, FaultStop, Memory, Part, Rule};
use xmp_write::{Form, Prefixes};

/// Where the parts of the new bytes end, which stand together.
#[derive(Clone, Copy)]
pub struct Ends {
    /// The numbers that are exchanged.
    pub numbers: u64,
    /// The zero byte after an odd length, and the count of the copied directory.
    pub head: u64,
    /// The new entry.
    pub entry: u64,
    pub packet: u64,
}

/// The first directory has as many entries as it may have.
fn over_entries() -> Fault
    ensures { result ≡ over_entries }
{
    Fault {
        x: 65_536,
        y: 65_535,
        ..Fault::at(Rule::TiffLimit, Part::File, 0)
    }
}

/// The new file is longer than its numbers of 32 bits tell.
fn over_offsets(size: u64) -> Fault
    ensures { result ≡ over_offsets size }
{
    Fault {
        x: size,
        y: u64::from(u32::MAX),
        ..Fault::at(Rule::TiffLimit, Part::File, 0)
    }
}

/// The parts of the new file.
fn last_parts(alloc: Global, relocation: &Relocation, ends: Ends) -> Result<Vec<FilePart>, Memory>
    ensures { IfOk result (λ parts. parts.items ≡ last_parts relocation.now ends) }
{
    let Relocation {
        size,
        changed,
        before,
        after,
        ..
    } = *relocation;
    let mut parts = Vec::new(alloc);
    parts.push(FilePart::Old(span(0, changed.start)))?;
    parts.push(FilePart::New(span(0, ends.numbers)))?;
    parts.push(FilePart::Old(span(changed.end, size)))?;
    parts.push(FilePart::New(span(ends.numbers, ends.head)))?;
    parts.push(FilePart::Old(before))?;
    parts.push(FilePart::New(span(ends.head, ends.entry)))?;
    parts.push(FilePart::Old(after))?;
    parts.push(FilePart::New(span(ends.entry, ends.packet)))?;
    Ok(parts)
}

/// The new bytes of a relocated file, whose packet has this length, and where their parts end.
fn new_bytes(
    alloc: Global,
    relocation: &Relocation,
    tree: &Tree<'_>,
    prefixes: &Prefixes<'_>,
    form: &Form,
    len: usize,
) -> Result<(Vec<u8>, Ends), Memory>
    requires lies { Lies relocation.now }
    requires roomy { has_no_room relocation.now ≡ false }
    requires told { MayTell relocation.now len }
    requires part { form.now.first + form.now.count ≤ length tree.now.props }
    requires room { least_len prefixes.now tree.now form.now ≤ len }
    requires short { len ≤ 16777216 }
    ensures { IfOk result (λ new. AreNew relocation.now (packet prefixes.now tree.now form.now len) new.0.items new.1) }
{
    let mut bytes = Vec::new(alloc);
    relocation.push_numbers(&mut bytes, len as u64)?;
    let numbers = bytes.as_slice().len() as u64;
    relocation.push_head(&mut bytes)?;
    let head = bytes.as_slice().len() as u64;
    relocation.push_entry(&mut bytes, len as u64)?;
    let entry = bytes.as_slice().len() as u64;
    push_packet(&mut bytes, tree, prefixes, form, len)?;
    let packet = bytes.as_slice().len() as u64;
    Ok((
        bytes,
        Ends {
            numbers,
            head,
            entry,
            packet,
        },
    ))
}

/// The new file with a packet of this length at its end, which is as long as the least one or longer.
///
/// # Errors
/// TiffLimit where the first directory has no room for another entry, or where the file would be longer than
/// its numbers tell; then OutLimit. A first directory that doesn't lie in the file, which no walk gives, answers
/// want of memory.
pub fn append_packet(
    alloc: Global,
    size: u64,
    dirs: &Dirs,
    tree: &Tree<'_>,
    prefixes: &Prefixes<'_>,
    form: &Form,
    len: usize,
) -> Result<Exchange, FaultStop>
    requires part { form.now.first + form.now.count ≤ length tree.now.props }
    requires room { least_len prefixes.now tree.now form.now ≤ len }
    requires short { len ≤ 16777216 }
    ensures step { LastAnswer size dirs.now (packet prefixes.now tree.now form.now len) result }
    ensures lies { IfOk result (ExchangeLies size) }
{
    let Some(relocation) = Relocation::of(dirs, size) else {
        return Err(FaultStop::Memory);
    };
    if relocation.lacks_room() {
        return Err(FaultStop::Fault(over_entries()));
    }
    let new_len = relocation.place + len as u64;
    if !relocation.tells(new_len) {
        return Err(FaultStop::Fault(over_offsets(new_len)));
    }
    let (bytes, ends) = new_bytes(alloc, &relocation, tree, prefixes, form, len)?;
    let parts = last_parts(alloc, &relocation, ends)?;
    within_out(size, parts, Bytes::from_vec(bytes))
}
