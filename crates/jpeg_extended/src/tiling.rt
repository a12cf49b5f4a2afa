//! Whether portions tile their text, by their heads alone.
ghost use Rattle.std.specs.Prelude.{◌≡◌, ◌↔◌, map, IsTrue, IsPermutation, IfOk, IfSome};
ghost use Rattle.jpeg_extended.specs.Heads.{extent_of};
ghost use Rattle.jpeg_extended.specs.Tiling.{Tiles, TilingAnswer, all_say, reach};

use std::alloc::AllocError;
use xmp_values::Memory;

/// The most bytes of an extended text.
const LIMIT: u32 = 16_777_216;

/// Why portions give no text.
#[derive(Clone, Copy, Debug, PartialEq, Eq, Drop)]
pub enum ExtStop {
    /// The first portion in the file says this length of the whole, which is over 16,777,216.
    TooLong(u64),
    /// The portions tile the text up to this place and no further, or differ in the length of the whole.
    Gap(u64),
    /// Memory was wanted, and there was none.
    Memory,
}

impl From<Memory> for ExtStop {
    ghost use Rattle.jpeg_extended.specs.declared.tiling.ExtStop.TheVariants as stop;

    ghost from_gives = { λ _ e. e ≡ stop.Memory };

    fn from(_memory: Memory) -> ExtStop {
        ExtStop::Memory
    }
}

impl From<AllocError> for ExtStop {
    ghost use Rattle.jpeg_extended.specs.declared.tiling.ExtStop.TheVariants as stop;

    ghost from_gives = { λ _ e. e ≡ stop.Memory };

    fn from(_error: AllocError) -> ExtStop {
        ExtStop::Memory
    }
}

/// What a portion says of itself, and where its bytes stand.
#[derive(Clone, Copy, Debug, PartialEq, Eq, Drop)]
pub struct Head {
    /// The length of the whole text.
    pub full: u32,
    /// The place of the portion in the text.
    pub offset: u32,
    /// The length of the portion.
    pub len: u32,
    /// The place of the portion's bytes, wherever they are kept.
    pub at: u64,
}

/// Puts heads into the order in which they tile, and answers the length of the text; None for no
/// head at all. Nothing but the heads is looked at.
///
/// # Errors
/// The first of `ExtStop` that holds. The heads may then be in any order.
pub fn tile(heads: &mut Vec<Head>) -> Result<Option<u32>, ExtStop>
    ensures shuffled { IsPermutation heads.old.items heads.new.items }
    ensures tiles { IfOk result (λ found. IfSome found (λ full. Tiles 0 full (map extent_of heads.new.items))) }
    ensures answer { TilingAnswer (map extent_of heads.old.items) result }
{
    let Some(first) = heads.first() else {
        return Ok(None);
    };
    let full = first.full;
    if full > LIMIT {
        return Err(ExtStop::TooLong(full as u64));
    }
    let same = all_say(heads.as_slice(), full);
    heads.sort_by_key(|head| (head.offset, head.len))?;
    let (place, all) = reach_of(heads.as_slice());
    if same && all && place == full as u64 {
        Ok(Some(full))
    } else {
        Err(ExtStop::Gap(place))
    }
}

/// Whether all heads say this length of the whole.
fn all_say(heads: &[Head], full: u32) -> bool
    ensures { result ≡ all_say full (map extent_of heads.now) }
{
    heads.iter().all(|head| head.full == full)
}

/// The end of the heads' longest beginning that tiles, and whether that is all of them.
fn reach_of(heads: &[Head]) -> (u64, bool)
    ensures place { result.0 ≡ reach 0 (map extent_of heads.now) }
    ensures all { IsTrue result.1 ↔ Tiles 0 result.0 (map extent_of heads.now) }
{
    let mut at = 0;
    for head in heads {
        if head.offset as u64 != at {
            return (at, false);
        }
        at += head.len as u64;
    }
    (at, true)
}
