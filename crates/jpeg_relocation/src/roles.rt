//! What becomes of each region.
ghost use Rattle.std.specs.Prelude.{◌≡◌, ◌<◌, length, slice_get, Some};
ghost use Rattle.std.specs.Option.{option_map};
ghost use Rattle.jpeg_relocation.specs.Roles.{role, is_at, IsNext};

use jpeg_regions::{RegionKind, Regions};
use xmp_base::FileSpan;

/// What becomes of a region.
#[derive(Clone, Copy)]
pub enum Role {
    /// It stays.
    Kept,
    /// It is the main packet, which is written anew.
    Main,
    /// It is a portion that was joined, and goes.
    Joined,
}

/// The role of region `i`, where `joined[portion]` is the first joined portion from there on.
pub fn role_of(regions: &Regions, i: usize, joined: &[FileSpan], portion: usize) -> Role
    requires there { i < length regions.now }
    requires next { IsNext joined.now regions.now i portion }
    ensures { option_map (role joined.now) (slice_get regions.now i) ≡ Some result }
{
    match regions.kind(i) {
        RegionKind::Main => Role::Main,
        RegionKind::Portion => {
            if is_at(joined, portion, regions.payload(i)) {
                Role::Joined
            } else {
                Role::Kept
            }
        }
        _ => Role::Kept,
    }
}

/// Whether a joined portion has this payload.
fn is_at(joined: &[FileSpan], portion: usize, payload: FileSpan) -> bool
    ensures { result ≡ is_at (slice_get joined.now portion) payload }
{
    match joined.get(portion) {
        Some(next) => next.start == payload.start && next.end == payload.end,
        None => false,
    }
}
