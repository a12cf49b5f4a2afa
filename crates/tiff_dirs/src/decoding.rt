//! The entries of a directory, decoded where they are asked for.
ghost use Rattle.std.specs.Prelude.{◌≡◌, ◌*◌, ◌<◌, All, slice_get, Some};
ghost use Rattle.tiff_dirs.specs.Numbers.{number};
ghost use Rattle.tiff_dirs.specs.Pictures.{first_of_tag};
ghost use Rattle.tiff_dirs.specs.Decoding.{CheckAnswer, entries_of};
ghost use Rattle.tiff_dirs.specs.Walking.{Lies};

use crate::body::Entries;
use crate::entry::{Entry, shown, take_entry};
use crate::numbers::u16_at;
use crate::stop::TiffStop;

/// The first fault of the entries of a directory, the first or another, if one has a fault.
pub fn check_entries(entries: &Entries, first: bool) -> Result<(), TiffStop>
    ensures { CheckAnswer entries.now.layout entries.now.part.len first (entries_of entries.now) result }
{
    let step = entries.layout.entry;
    let mut seen = false;
    let mut next = 0;
    let mut left = entries.count;
    while left > 0 {
        let entry = match take_entry(&entries.part, entries.layout, next, first, seen) {
            Ok(entry) => entry,
            Err(stop) => return Err(stop),
        };
        seen |= entry.tag == 700;
        next += step;
        left -= 1;
    }
    Ok(())
}

/// Entry `k`, where the values of all lie in the file.
pub fn entry_at(entries: &Entries, k: u64) -> Entry
    requires lie { All (Lies entries.now.layout entries.now.part.len) (entries_of entries.now) }
    requires within { k < entries.now.count }
    ensures { slice_get (entries_of entries.now) k ≡ Some result }
{
    let layout = entries.layout;
    shown(&entries.part, layout, layout.entry * k)
}

/// The tag of entry `k`.
fn tag_at(entries: &Entries, k: u64) -> u16
    requires { k < entries.now.count }
    ensures { result ≡ number entries.now.layout.big 2 (entries.now.layout.entry * k) entries.now.part.bytes.now }
{
    let layout = entries.layout;
    u16_at(entries.part.bytes, (layout.entry * k) as usize, layout.big)
}

/// The first entry of a tag. Only its tag is read of another.
pub fn first_of_tag(entries: &Entries, tag: u16) -> Option<Entry>
    requires { All (Lies entries.now.layout entries.now.part.len) (entries_of entries.now) }
    ensures { result ≡ first_of_tag tag (entries_of entries.now) }
{
    for k in 0..entries.count {
        let here = tag_at(entries, k);
        if here == tag {
            return Some(entry_at(entries, k));
        }
    }
    None
}
