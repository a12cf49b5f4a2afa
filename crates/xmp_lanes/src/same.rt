//! What two texts have in common at their fronts.
ghost use Rattle.std.specs.Prelude.{◌≡◌, ◌+◌, ◌≤◌, drop, length};
ghost use Rattle.std.specs.Simd.Lanes.{chunk};
ghost use Rattle.xmp_lanes.specs.Runs.{same_run};

use crate::loads::{LANES, first_set};
use std::simd::prelude::*;

/// The common run of two loads.
#[inline(always)]
fn same_in_load(a: &[u8], b: &[u8], at: usize) -> usize
    requires a { at + LANES ≤ length a.now }
    requires b { at + LANES ≤ length b.now }
    ensures { result ≡ same_run (chunk at 32 a.now) (chunk at 32 b.now) }
{
    let differ = u8x32::from_slice(&a[at..]).simd_ne(u8x32::from_slice(&b[at..]));
    first_set(differ.to_bitmask())
}

/// The common run from a place on, byte by byte.
fn same_few(a: &[u8], b: &[u8], from: usize) -> usize
    requires a { from ≤ length a.now }
    requires b { from ≤ length b.now }
    ensures { from + same_run (drop from a.now) (drop from b.now) ≡ result }
{
    let len = a.len().min(b.len());
    for at in from..len {
        if a[at] != b[at] {
            return at;
        }
    }
    len
}

/// The length of the longest common prefix.
pub fn same_run(a: &[u8], b: &[u8]) -> usize
    ensures { result ≡ same_run a.now b.now }
{
    let len = a.len().min(b.len());
    let mut at = 0;
    while len - at >= LANES {
        let run = same_in_load(a, b, at);
        if run < LANES {
            return at + run;
        }
        at += LANES;
    }
    same_few(a, b, at)
}
