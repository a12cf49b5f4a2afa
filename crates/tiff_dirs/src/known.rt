//! Walking a file whose length is known.
ghost use Rattle.std.specs.Prelude.{◌≡◌, length, IsTrue};
ghost use Rattle.xmp_base.specs.Device.{Told, bytes_of, is_known, len_of};
ghost use Rattle.tiff_dirs.specs.Layouts.{BeginsTiff};
ghost use Rattle.tiff_dirs.specs.Known.{WalkKnownCall};

use crate::stop::WalkStop;
use crate::walk::{Dirs, walk_known};
use std::alloc::Global;
use xmp_base::Desk;
use xmp_values::Rule;

impl Dirs {
    /// The directories of a known file of this length, or its first fault. The header, the directories
    /// and the values of offsets and lengths are read, and nothing else.
    pub fn walk_known<D: Desk>(
        alloc: Global,
        desk: &mut D,
        name: &str,
        len: u64,
    ) -> Result<Dirs, WalkStop>
        requires known { IsTrue (is_known (D.state desk.old) name.now) }
        requires len { len_of (D.state desk.old) name.now ≡ len }
        requires told { Told (D.state desk.old).files (λ files. length (bytes_of files name.now) ≡ len) }
        requires begins { Told (D.state desk.old).files (λ files. BeginsTiff (bytes_of files name.now)) }
        ensures call { WalkKnownCall (D.state desk.old) (D.state desk.new) name.now result }
    {
        if len < 8 {
            return Err(WalkStop::Fault(Rule::ShortHeader, 0, 0, 0));
        }
        walk_known(alloc, desk, name, len)
    }
}
