//! The ranges that a pair of offsets and lengths names, one by one.
ghost use Rattle.std.specs.Prelude.{◌≡◌, ◌+◌, ◌<◌, length, slice_get, Some, None};
ghost use Rattle.tiff_dirs.specs.Pictures.{spans_of};
ghost use Rattle.tiff_dirs.specs.Faults.{pictures_fault};
ghost use Rattle.tiff_dirs.specs.Pairs.{CountAnswer, RangeAnswer, listed_from};
ghost use Rattle.tiff_dirs.specs.Nearest.{closest};

use crate::listed::Listed;
use crate::numbers::number_at;
use crate::spans::closer;
use crate::stop::TiffStop;
use xmp_base::FileSpan;
use xmp_values::Rule;

/// The range that the offset and the length at an index name, in a file of `len` bytes. A length of
/// 0 names none.
fn range_at(listed: &Listed, len: u64, k: u64) -> Result<Option<FileSpan>, TiffStop>
    requires { k < listed.now.pair.count }
    ensures { RangeAnswer len (listed_from listed.now k) (listed_from listed.now (k + 1)) listed.now.pair.place result }
{
    let pair = &listed.pair;
    let width = pair.lens.width;
    let size = number_at(listed.lens, width * k, width, listed.big);
    if size == 0 {
        return Ok(None);
    }
    let width = pair.offsets.width;
    let start = number_at(listed.offsets, width * k, width, listed.big);
    if start > len || size > len - start {
        return Err(TiffStop::Fault(Rule::RegionOut, pair.place, 0, 0));
    }
    Ok(Some(FileSpan {
        start,
        end: start + size,
    }))
}

/// How many ranges a pair names, where each lies in the file.
pub fn count_ranges(listed: &Listed, len: u64) -> Result<u64, TiffStop>
    ensures { CountAnswer len (listed_from listed.now 0) result }
{
    let mut shown = 0;
    for k in 0..listed.pair.count {
        match range_at(listed, len, k) {
            Ok(Some(_)) => shown += 1,
            Ok(None) => (),
            Err(stop) => return Err(stop),
        }
    }
    Ok(shown)
}

/// Range `n` of a pair of which some lengths may be 0.
fn counted_range(listed: &Listed, len: u64, n: u64) -> FileSpan
    requires clear { pictures_fault len (listed_from listed.now 0) ≡ None }
    requires within { n < length (listed_from listed.now 0) }
    ensures { slice_get (spans_of (listed_from listed.now 0)) n ≡ Some result }
{
    let mut left = n;
    for k in 0..listed.pair.count {
        if let Ok(Some(range)) = range_at(listed, len, k) {
            if left == 0 {
                return range;
            }
            left -= 1;
        }
    }
    unreachable!()
}

/// Range `n` of a pair that names `shown` ranges. Where it names as many as it has numbers, none of
/// those before has to be counted.
pub fn nth_range(listed: &Listed, len: u64, shown: u64, n: u64) -> FileSpan
    requires clear { pictures_fault len (listed_from listed.now 0) ≡ None }
    requires shown { shown ≡ length (listed_from listed.now 0) }
    requires within { n < shown }
    ensures { slice_get (spans_of (listed_from listed.now 0)) n ≡ Some result }
{
    if shown == listed.pair.count {
        if let Ok(Some(range)) = range_at(listed, len, n) {
            return range;
        }
    }
    counted_range(listed, len, n)
}

/// The best with the ranges of a pair.
pub fn closest_range(
    listed: &Listed,
    len: u64,
    own: FileSpan,
    best: Option<FileSpan>,
) -> Option<FileSpan>
    requires { pictures_fault len (listed_from listed.now 0) ≡ None }
    ensures { result ≡ closest own best (spans_of (listed_from listed.now 0)) }
{
    let mut best = best;
    for k in 0..listed.pair.count {
        if let Ok(Some(range)) = range_at(listed, len, k) {
            best = closer(own, best, range);
        }
    }
    best
}
