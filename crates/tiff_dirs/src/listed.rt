//! Pairs of offsets and lengths, by where their tables stand.
ghost use Rattle.std.specs.Prelude.{◌*◌, ◌≤◌, length};
ghost use Rattle.tiff_dirs.specs.Sizes.{IsSized};

use crate::tables::Pair;

/// The bytes of a pair's offsets and of its lengths.
#[derive(Drop)]
pub struct Listed<'a> {
    pub big: bool,
    pub pair: Pair,
    pub offsets: &'a [u8],
    pub lens: &'a [u8],
    ghost sized: { IsSized pair },
    ghost offsets_fit: { pair.offsets.width * pair.count ≤ length offsets.now },
    ghost lens_fit: { pair.lens.width * pair.count ≤ length lens.now },
}
