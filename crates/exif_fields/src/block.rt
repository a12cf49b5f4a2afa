//! An Exif block.
//!
//! `II` or `MM` | 42 | offset, 4 bytes
//! count, 2 bytes | entries of 12 bytes | offset of the next, 4 bytes
ghost use Rattle.std.specs.Prelude.{◌≡◌, ◌+◌, ◌*◌, ◌≤◌, ◌==◌, length, IsTrue, IfOk, IfSome, Some, Ok};
ghost use Rattle.std.specs.Option.{option_copied};
ghost use Rattle.xmp_values.specs.Stops.{Gives, Makes, place_of};
ghost use Rattle.exif_fields.specs.Tags.{is_tag_in};
ghost use Rattle.exif_fields.specs.Blocks.{entries_at, entries_from, entry_at, entry_count, exif_directory, first_directory, first_of, has_header, is_big, lies_in, named, text_at, values_of, with_entries, with_entry, with_exif};

use crate::raw::{RawExif, is_exif_tag, is_first_tag};
use std::alloc::Global;
use tiff_dirs::{u16_at, u32_at};
use xmp_values::{PlaceStop, Rule};

/// The tag of the entry that names the Exif directory.
const EXIF: u16 = 34_665;

/// The type of a text, ASCII.
const TEXT: u16 = 2;

/// An entry of a directory: its place, and its parts.
#[derive(Clone, Copy)]
pub struct Entry {
    place: usize,
    tag: u16,
    code: u16,
    count: u32,
    /// The value, or its offset.
    word: u32,
}

/// Whether a block begins with the header of a TIFF of 32-bit offsets.
#[tactic(auto, unfolding(crate::specs::Blocks::has_header))]
fn has_header(block: &[u8]) -> bool
    ensures is { result ≡ has_header block.now }
    ensures size { IsTrue result → 8 ≤ length block.now }
{
    block.len() >= 8 && (&block[..4] == b"II*\0".as_slice() || &block[..4] == b"MM\0*".as_slice())
}

/// The entry at a place.
#[tactic(auto, unfolding(crate::specs::Blocks::entry_at))]
fn entry_at(block: &[u8], place: usize) -> Entry
    requires { place + 12 ≤ length block.now }
    ensures is { result ≡ entry_at block.now place }
    ensures place { result.place ≡ place }
{
    let big = block[0] == b'M';
    Entry {
        place,
        tag: u16_at(block, place, big),
        code: u16_at(block, place + 2, big),
        count: u32_at(block, place + 4, big),
        word: u32_at(block, place + 8, big),
    }
}

/// Whether the directory at an offset lies in the block, with the offset of the next.
#[tactic(auto, unfolding(crate::specs::Blocks::lies_in))]
fn lies_in(block: &[u8], at: usize) -> bool
    requires { 1 ≤ length block.now }
    ensures { result ≡ lies_in block.now at }
{
    if at > block.len() || block.len() - at < 6 {
        return false;
    }
    let count = usize::from(u16_at(block, at, block[0] == b'M'));
    block.len() - at - 6 >= 12 * count
}

/// The number of entries of a directory that lies in the block.
#[tactic(auto, unfolding(crate::specs::Blocks::lies_in))]
fn entry_count(block: &[u8], at: usize) -> usize
    requires some { 1 ≤ length block.now }
    requires lies { IsTrue (lies_in block.now at) }
    ensures is { result ≡ entry_count block.now at }
    ensures room { at + 6 + 12 * result ≤ length block.now }
{
    usize::from(u16_at(block, at, block[0] == b'M'))
}

/// The offset of the first directory, or what is wrong with the header or that directory.
#[tactic(auto, unfolding(crate::specs::Blocks::first_directory))]
fn first_directory(block: &[u8]) -> Result<usize, PlaceStop>
    ensures answer { Gives place_of result (first_directory block.now) }
    ensures lies { IfOk result (λ at. IsTrue (lies_in block.now at)) }
    ensures some { IfOk result (λ _. 1 ≤ length block.now) }
{
    if !has_header(block) {
        return Err(PlaceStop::Fault(Rule::ExifHeader, 0));
    }
    let at = u32_at(block, 4, block[0] == b'M') as usize;
    if at == 0 || !lies_in(block, at) {
        Err(PlaceStop::Fault(Rule::ExifDirectory, at as u64))
    } else {
        Ok(at)
    }
}

/// The offset that the first entry for the Exif directory names, of the directory at an offset.
#[tactic(auto, using(crate::proofs::Directories::entries_more), unfolding(crate::specs::Blocks::entries_at))]
fn exif_offset(block: &[u8], at: usize) -> Option<u32>
    requires some { 1 ≤ length block.now }
    requires lies { IsTrue (lies_in block.now at) }
    ensures { result ≡ named (first_of 34665 (entries_at block.now at)) }
{
    let count = entry_count(block, at);
    for i in 0..count {
        let entry = entry_at(block, at + 2 + 12 * i);
        if entry.tag == EXIF {
            return named(entry);
        }
    }
    None
}

/// The offset that an entry names: one LONG, or one IFD.
fn named(entry: Entry) -> Option<u32>
    ensures { result ≡ named (Some entry) }
{
    if (entry.code == 4 || entry.code == 13) && entry.count == 1 {
        Some(entry.word)
    } else {
        None
    }
}

/// The offset of the Exif directory, if there is one, or what is wrong with it.
#[tactic(auto, unfolding(crate::specs::Blocks::exif_directory))]
fn exif_directory(block: &[u8], first: usize) -> Result<Option<usize>, PlaceStop>
    requires some { 1 ≤ length block.now }
    requires lies { IsTrue (lies_in block.now first) }
    ensures answer { Gives place_of result (exif_directory block.now first) }
    ensures lies { IfOk result (λ exif. IfSome exif (λ at. IsTrue (lies_in block.now at))) }
{
    match exif_offset(block, first) {
        None => Ok(None),
        Some(word) => {
            let at = word as usize;
            if lies_in(block, at) {
                Ok(Some(at))
            } else {
                Err(PlaceStop::Fault(Rule::ExifDirectory, at as u64))
            }
        }
    }
}

/// The bytes of an entry's text, if they lie in the block.
fn text_at(block: &[u8], entry: Entry) -> Option<&[u8]>
    requires { entry.place + 12 ≤ length block.now }
    ensures { option_copied result ≡ text_at block.now entry }
{
    let start = if entry.count <= 4 {
        entry.place + 8
    } else {
        entry.word as usize
    };
    let end = start + entry.count as usize;
    if end <= block.len() {
        Some(&block[start..end])
    } else {
        None
    }
}

/// Whether the tag is read in the Exif directory, or in the first.
fn is_tag_in(exif: bool, tag: u16) -> bool
    ensures { result ≡ is_tag_in exif tag }
{
    if exif {
        is_exif_tag(tag)
    } else {
        is_first_tag(tag)
    }
}

impl RawExif {
    /// Keeps what an entry of a directory says.
    #[tactic(auto, unfolding(crate::specs::Blocks::with_entry))]
    fn add_entry(&mut self, block: &[u8], exif: bool, entry: Entry) -> Result<(), PlaceStop>
        requires { entry.place + 12 ≤ length block.now }
        ensures { Makes place_of result self.new (with_entry block.now exif self.old entry) }
    {
        if !is_tag_in(exif, entry.tag) {
            return Ok(());
        }
        if entry.code != TEXT {
            self.pass(entry.tag)?;
            return Ok(());
        }
        match text_at(block, entry) {
            Some(value) => {
                self.take(entry.tag, value)?;
                Ok(())
            }
            None => Err(PlaceStop::Fault(Rule::ExifValue, entry.place as u64)),
        }
    }

    /// Keeps what the entries of the directory at an offset say.
    #[tactic(auto, using(crate::proofs::Directories::steps), unfolding(crate::specs::Blocks::entries_at))]
    fn add_directory(&mut self, block: &[u8], exif: bool, at: usize) -> Result<(), PlaceStop>
        requires some { 1 ≤ length block.now }
        requires lies { IsTrue (lies_in block.now at) }
        ensures { Makes place_of result self.new (with_entries block.now exif (entries_at block.now at) (Ok self.old)) }
    {
        let count = entry_count(block, at);
        for i in 0..count {
            let entry = entry_at(block, at + 2 + 12 * i);
            self.add_entry(block, exif, entry)?;
        }
        Ok(())
    }
}

/// The values of an Exif block, the first of each tag, or the block's first fault.
///
/// # Errors
/// `Fault` with the first rule of these that is broken: ExifHeader, ExifDirectory, ExifValue; and
/// `Memory`.
#[tactic(auto, using(crate::proofs::Directories::stays_fault_with_exif), unfolding(crate::specs::Blocks::values_of))]
pub fn raw_of(alloc: Global, block: &[u8]) -> Result<RawExif, PlaceStop>
    ensures { Gives place_of result (values_of block.now) }
{
    let first = first_directory(block)?;
    let exif = exif_directory(block, first)?;
    let mut raw = RawExif::new(alloc);
    raw.add_directory(block, false, first)?;
    if let Some(exif) = exif {
        raw.add_directory(block, true, exif)?;
    }
    Ok(raw)
}
