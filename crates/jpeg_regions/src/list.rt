//! The list of regions, and what stops a cut.
ghost use Rattle.std.specs.Prelude.{◌≡◌, ℕ, ◌≤◌, ◌<◌, ◌⊎◌, map, length, slice_get, Some, IfOk, MatchResult};
ghost use Rattle.std.specs.Option.{option_map};
ghost use Rattle.jpeg_regions.specs.Jpeg.{mains, portion_payloads};
ghost use Rattle.jpeg_regions.specs.Reads.{region_of};

use crate::kind::RegionKind;
use crate::reading::Found;
use std::alloc::Global;
use std::marker::Model;
use xmp_base::FileSpan;
use xmp_values::{Memory, Rule};

/// The regions of a file, in their order. The last is the tail.
#[derive(Drop)]
pub struct Regions {
    found: Vec<Found>,
}

impl Model for Regions {
    ghost use Rattle.std.specs.Prelude.{List, map};
    ghost use Rattle.jpeg_regions.specs.Jpeg.{Region};

    ghost Value = { List Region };

    ghost use Rattle.jpeg_regions.specs.Reads.{region_of};

    ghost view = { λ r. map region_of r.found.items };
}

impl Regions {
    /// The list of what was found; a second main region is the fault, with its place.
    pub(crate) fn of(found: Vec<Found>) -> Result<Regions, (Rule, u64)>
        ensures { MatchResult result
            (λ regions. (regions ≡ map region_of found.items) × (length (mains regions) ≤ 1))
            (λ e. (e.0 ≡ Rule.TwoPackets) × (option_map (λ r. r.range.start) (slice_get (mains (map region_of found.items)) 1) ≡ Some e.1)) }
    {
        match second_main(found.as_slice()) {
            Some(start) => Err((Rule::TwoPackets, start)),
            None => Ok(Regions { found }),
        }
    }

    /// The number of regions.
    pub fn len(&self) -> usize
        ensures { result ≡ length self.now }
    {
        self.found.len()
    }

    /// The range of the main packet's payload, by places in the file; None without one.
    pub fn main(&self) -> Option<FileSpan>
        ensures { result ≡ option_map (λ r. r.payload) (slice_get (mains self.now) 0) }
    {
        main_payload(self.found.as_slice())
    }

    /// The ranges of the payloads of portions of extended texts, by places in the file, in its order.
    ///
    /// # Errors
    /// `Memory`.
    pub fn portions(&self, alloc: Global) -> Result<Vec<FileSpan>, Memory>
        ensures { IfOk result (λ payloads. payloads.items ≡ portion_payloads self.now) }
    {
        portions_of(alloc, self.found.as_slice())
    }

    /// What region `i` is to metadata, by its marker and the beginning of its payload.
    pub fn kind(&self, i: usize) -> RegionKind
        requires { i < length self.now }
        ensures { option_map (λ r. r.kind) (slice_get self.now i) ≡ Some result }
    {
        self.found[i].kind
    }

    /// The whole of region `i`, from its first FF byte on, by places in the file.
    pub fn range(&self, i: usize) -> FileSpan
        requires { i < length self.now }
        ensures { option_map (λ r. r.range) (slice_get self.now i) ≡ Some result }
    {
        let found = self.found[i];
        FileSpan {
            start: found.start,
            end: found.end,
        }
    }

    /// The bytes of region `i` after its length, by places in the file. Empty for a marker without length and for the tail.
    pub fn payload(&self, i: usize) -> FileSpan
        requires { i < length self.now }
        ensures { option_map (λ r. r.payload) (slice_get self.now i) ≡ Some result }
    {
        let found = self.found[i];
        FileSpan {
            start: found.payload,
            end: found.payload_end(),
        }
    }
}

/// The start of the second main region.
fn second_main(found: &[Found]) -> Option<u64>
    ensures { result ≡ option_map (λ r. r.range.start) (slice_get (mains (map region_of found.now)) 1) }
{
    let mut seen = false;
    for region in found {
        if let RegionKind::Main = region.kind {
            if seen {
                return Some(region.start);
            }
            seen = true;
        }
    }
    None
}

/// The range of the first main region's payload.
fn main_payload(found: &[Found]) -> Option<FileSpan>
    ensures { result ≡ option_map (λ r. r.payload) (slice_get (mains (map region_of found.now)) 0) }
{
    for region in found {
        if let RegionKind::Main = region.kind {
            return Some(FileSpan {
                start: region.payload,
                end: region.payload_end(),
            });
        }
    }
    None
}

/// The ranges of the portions' payloads.
fn portions_of(alloc: Global, found: &[Found]) -> Result<Vec<FileSpan>, Memory>
    ensures { IfOk result (λ payloads. payloads.items ≡ portion_payloads (map region_of found.now)) }
{
    let mut payloads = Vec::new(alloc);
    for region in found {
        if let RegionKind::Portion = region.kind {
            payloads.push(FileSpan {
                start: region.payload,
                end: region.payload_end(),
            })?;
        }
    }
    Ok(payloads)
}
