//! The index of a multi-picture file, which tells where later pictures stand.
ghost use Rattle.std.specs.Prelude.{◌≡◌, ◌≤◌, length, slice_get, Some};
ghost use Rattle.std.specs.Option.{option_map};
ghost use Rattle.xmp_base.specs.declared.file_span.FileSpan.{FileSpan};
ghost use Rattle.jpeg_regions.specs.Cutting.{Tiles};
ghost use Rattle.jpeg_relocation.specs.Relocation.{kept};
ghost use Rattle.jpeg_relocation.specs.Pictures.{first_index, is_index, moved_by, pictures_len};
ghost use Rattle.jpeg_relocation.specs.Roles.{IsNext};

use crate::roles::{Role, role_of};
use jpeg_regions::{RegionKind, Regions};
use xmp_base::FileSpan;

/// The index of a multi-picture file whose pictures a relocation would move.
#[derive(Clone, Copy, Debug, PartialEq, Eq)]
pub struct MovedPictures {
    /// The start of the index's region.
    pub start: u64,
    /// The sum of the lengths of the regions after it.
    pub old: u64,
    /// The same sum in the new file.
    pub new: u64,
}

/// The first index of a file, and the lengths of the regions after it.
#[derive(Clone, Copy, Debug, PartialEq, Eq)]
pub struct PictureIndex {
    /// The start of the index's region.
    pub start: u64,
    /// The sum of the lengths of the regions after it.
    pub old: u64,
    /// The sum of the lengths of those among them that stay.
    pub kept: u64,
    /// Whether the new segments stand after it.
    pub pushed: bool,
}

impl PictureIndex {
    /// The sums, where they differ when the new segments have so many bytes.
    pub fn moved_by(&self, added: u64) -> Option<MovedPictures>
        ensures { result ≡ moved_by self.now added }
    {
        let PictureIndex {
            start,
            old,
            kept,
            pushed,
        } = *self;
        let new = if pushed {
            kept.saturating_add(added)
        } else {
            kept
        };
        if new == old {
            return None;
        }
        Some(MovedPictures { start, old, new })
    }
}

/// The number of the first region that is such an index.
pub fn first_index(regions: &Regions) -> Option<usize>
    ensures { result ≡ first_index regions.now }
{
    for i in 0..regions.len() {
        if is_index(regions.kind(i)) {
            return Some(i);
        }
    }
    None
}

/// Whether a region is an index of a multi-picture file.
fn is_index(kind: RegionKind) -> bool
    ensures { result ≡ is_index kind }
{
    matches!(kind, RegionKind::Mpf)
}

/// The sum of the lengths of the regions after the first index that stay.
pub fn kept_len(regions: &Regions, joined: &[FileSpan], size: u64) -> u64
    requires tiles { Tiles 2 size regions.now }
    requires next { IsNext joined.now regions.now 0 0 }
    ensures { result ≡ pictures_len (kept joined.now regions.now) }
{
    let mut seen = false;
    let mut sum = 0;
    let mut portion = 0;
    for i in 0..regions.len() {
        match role_of(regions, i, joined, portion) {
            Role::Kept if seen => {
                let range = regions.range(i);
                sum += range.end - range.start;
            }
            Role::Kept => seen = is_index(regions.kind(i)),
            Role::Main => {}
            Role::Joined => portion += 1,
        }
    }
    sum
}
