//! What stays of a file, as ranges of places in it.
ghost use Rattle.std.specs.Prelude.{◌≡◌, length, not, IfOk};
ghost use Rattle.std.specs.List.{prefix_len};
ghost use Rattle.xmp_base.specs.declared.file_span.FileSpan.{FileSpan};
ghost use Rattle.jpeg_regions.specs.Jpeg.{portion_payloads};
ghost use Rattle.jpeg_regions.specs.Cutting.{Tiles};
ghost use Rattle.jpeg_relocation.specs.Relocation.{before, after, has_main};
ghost use Rattle.jpeg_relocation.specs.Runs.{runs, AreAmong};
ghost use Rattle.jpeg_relocation.specs.Roles.{IsNext, goes_before, stops};
ghost use Rattle.jpeg_relocation.specs.Pictures.{moved_of, index_of, moved_pictures};

use crate::pictures::{MovedPictures, PictureIndex, first_index, kept_len};
use crate::roles::{Role, role_of};
use crate::runs::{Place, runs_of};
use jpeg_regions::{RegionKind, Regions};
use std::alloc::Global;
use xmp_base::FileSpan;
use xmp_values::Memory;

/// What stays of a file. Regions that stand one after another are one range.
#[derive(Drop)]
pub struct KeptRuns {
    /// What stands before the new segments, after FF D8.
    pub before: Vec<FileSpan>,
    /// What stands after them. The last is, or ends with, the tail.
    pub after: Vec<FileSpan>,
    /// The first index of a multi-picture file.
    pub index: Option<PictureIndex>,
}

impl KeptRuns {
    /// What stays of a file of so many bytes, whose portions with these payloads were joined.
    ///
    /// # Errors
    /// `Memory`.
    pub fn of(
        alloc: Global,
        regions: &Regions,
        joined: &[FileSpan],
        size: u64,
    ) -> Result<KeptRuns, Memory>
        requires among { AreAmong joined.now (portion_payloads regions.now) }
        requires tiles { Tiles 2 size regions.now }
        ensures before { IfOk result (λ kept. kept.before.items ≡ runs (before joined.now regions.now)) }
        ensures after { IfOk result (λ kept. kept.after.items ≡ runs (after joined.now regions.now)) }
        ensures index { IfOk result (λ kept. kept.index ≡ index_of joined.now regions.now) }
    {
        let front = Place {
            region: 0,
            portion: 0,
        };
        let place = place_of(regions, joined);
        let before = runs_of(alloc, regions, joined, front, place.region)?;
        let after = runs_of(alloc, regions, joined, place, regions.len())?;
        let index = index_of(regions, joined, place.region, size);
        Ok(KeptRuns {
            before,
            after,
            index,
        })
    }

    /// The index whose pictures would move if the new segments had so many bytes.
    pub fn moved_pictures(&self, added: u64) -> Option<MovedPictures>
        ensures { result ≡ moved_of self.now.index added }
    {
        match &self.index {
            Some(index) => index.moved_by(added),
            None => None,
        }
    }
}

/// The first region before which the new segments stand.
fn place_of(regions: &Regions, joined: &[FileSpan]) -> Place
    requires { AreAmong joined.now (portion_payloads regions.now) }
    ensures next { IsNext joined.now regions.now result.region result.portion }
    ensures is { result.region ≡ prefix_len (goes_before joined.now (not (has_main regions.now))) regions.now }
{
    let first = regions.main().is_none();
    let mut portion = 0;
    for i in 0..regions.len() {
        let role = role_of(regions, i, joined, portion);
        if stops(first, role, regions.kind(i)) {
            return Place { region: i, portion };
        }
        if let Role::Joined = role {
            portion += 1;
        }
    }
    Place {
        region: regions.len(),
        portion,
    }
}

/// Whether the new segments stand before such a region; `first` says that no main one stood in the file.
fn stops(first: bool, role: Role, kind: RegionKind) -> bool
    ensures { result ≡ stops first role kind }
{
    match role {
        Role::Main => true,
        Role::Joined => false,
        Role::Kept => first && !matches!(kind, RegionKind::App0 | RegionKind::Exif),
    }
}

/// The first index of a multi-picture file, where the new segments stand before region `place`.
fn index_of(regions: &Regions, joined: &[FileSpan], place: usize, size: u64) -> Option<PictureIndex>
    requires among { AreAmong joined.now (portion_payloads regions.now) }
    requires tiles { Tiles 2 size regions.now }
    requires is { place ≡ prefix_len (goes_before joined.now (not (has_main regions.now))) regions.now }
    ensures { result ≡ index_of joined.now regions.now }
{
    match first_index(regions) {
        None => None,
        Some(i) => {
            let range = regions.range(i);
            Some(PictureIndex {
                start: range.start,
                old: size - range.end,
                kept: kept_len(regions, joined, size),
                pushed: i < place,
            })
        }
    }
}
