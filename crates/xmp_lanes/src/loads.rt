//! What one load of lanes tells.
ghost use Rattle.std.specs.Prelude.{◌≡◌};
ghost use Rattle.xmp_lanes.specs.Loads.{first_set};

/// How many bytes one load has.
pub(crate) const LANES: usize = 32;

/// The number of the first lane that is set, or the number of lanes.
#[inline(always)]
pub(crate) fn first_set(mask: u64) -> usize
    ensures { result ≡ first_set mask }
{
    if mask == 0 {
        LANES
    } else {
        mask.trailing_zeros() as usize
    }
}
