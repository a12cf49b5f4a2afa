//! The parts of a new file.
ghost use Rattle.std.specs.Prelude.{◌≡◌, ◌-◌, ◌≤◌, ℕ, IfOk, [], ◌∷◌};
ghost use Rattle.jpeg_regions.specs.Jpeg.{span};
ghost use Rattle.xmp_files.specs.Planning.{New};
ghost use Rattle.xmp_files.specs.NewFiles.{range_of, parts_at, NewLies, spliced_parts};

use std::alloc::Global;
use xmp_base::FileSpan;
use xmp_values::{Bytes, Memory};

/// A part of a new file.
#[derive(Clone, Copy, Debug, PartialEq, Eq)]
pub enum FilePart {
    /// A range of the old file.
    Old(FileSpan),
    /// A range of the new bytes, which stand together.
    New(FileSpan),
}

impl FilePart {
    /// How many bytes it has.
    pub fn len(self) -> u64
        requires { (range_of self).start ≤ (range_of self).end }
        ensures { result ≡ (range_of self).end - (range_of self).start }
    {
        match self {
            FilePart::Old(range) | FilePart::New(range) => range.end - range.start,
        }
    }
}

/// A new file: its parts, one after another, and all its new bytes.
#[derive(Debug, Drop)]
pub struct NewFile {
    pub parts: Vec<FilePart>,
    pub bytes: Bytes,
    /// Its length.
    pub len: u64,
}

/// A range, by its places.
pub fn span(start: u64, end: u64) -> FileSpan
    ensures { result ≡ span start end }
{
    FileSpan { start, end }
}

/// A file of so many bytes with those from `at` up to `rest` exchanged for as many as there are new ones.
pub fn spliced(at: u64, count: u64, rest: u64, size: u64) -> [FilePart; 3]
    ensures { result ≡ spliced_parts at count rest size }
{
    [
        FilePart::Old(span(0, at)),
        FilePart::New(span(0, count)),
        FilePart::Old(span(rest, size)),
    ]
}

/// A new file of new bytes alone.
pub fn whole_file(alloc: Global, bytes: Bytes) -> Result<NewFile, Memory>
    ensures is { IfOk result (λ new. parts_at new.bytes new.parts.items ≡ New bytes ∷ []) }
    ensures lies { (size : ℕ) → IfOk result (NewLies size) }
{
    let len = bytes.len() as u64;
    let mut parts = Vec::new(alloc);
    parts.push(FilePart::New(span(0, len)))?;
    Ok(NewFile { parts, bytes, len })
}
