//! The entries of a directory, as its bytes.
ghost use Rattle.std.specs.Prelude.{◌+◌, ◌*◌, ◌≤◌, ◌<◌, ◌^◌, length};
ghost use Rattle.tiff_dirs.specs.Layouts.{Widths};

use crate::entry::Part;
use crate::layout::Layout;

/// So many entries at the front of a part of the file.
#[derive(Drop)]
pub struct Entries<'a> {
    pub part: Part<'a>,
    pub layout: Layout,
    pub count: u64,
    ghost widths: { Widths layout },
    ghost inside: { layout.entry * count ≤ length part.bytes.now },
    ghost within: { part.start + length part.bytes.now ≤ part.len },
    ghost fits: { part.len < 2 ^ 64 },
}
