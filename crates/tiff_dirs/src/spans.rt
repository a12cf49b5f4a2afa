//! The first of the ranges that meet another.
ghost use Rattle.std.specs.Prelude.{◌≡◌};
ghost use Rattle.tiff_dirs.specs.Nearest.{meets, comes_before, closer};

use xmp_base::FileSpan;

/// Whether two ranges share a byte.
fn meets(a: FileSpan, b: FileSpan) -> bool
    ensures { result ≡ meets a b }
{
    a.start < b.end && b.start < a.end
}

/// Whether a range has a lesser start, or the same and no greater end.
fn comes_before(a: FileSpan, b: FileSpan) -> bool
    ensures { result ≡ comes_before a b }
{
    a.start < b.start || (a.start == b.start && a.end <= b.end)
}

/// The best so far, or one range more where that meets `own` and comes before it.
#[tactic(auto, unfolding(crate::specs::Nearest::closer))]
pub fn closer(own: FileSpan, best: Option<FileSpan>, other: FileSpan) -> Option<FileSpan>
    ensures { result ≡ closer own best other }
{
    if !meets(own, other) {
        return best;
    }
    match best {
        Some(best) if comes_before(best, other) => Some(best),
        _ => Some(other),
    }
}
