//! White space (XML 1.0, production 3).
ghost use Rattle.std.specs.Prelude.{◌≡◌, ◌+◌, ◌≤◌, length};
ghost use Rattle.std.specs.Simd.Lanes.{chunk};
ghost use Rattle.xmp_lanes.specs.Runs.{blank_run};

use crate::loads::{LANES, first_set};
use std::simd::prelude::*;
use xmp_values::is_blank_byte;

/// The run in one load.
#[inline(always)]
fn blank_in_load(bytes: &[u8], at: usize) -> usize
    requires { at + LANES ≤ length bytes.now }
    ensures { result ≡ blank_run (chunk at 32 bytes.now) }
{
    let load = u8x32::from_slice(&bytes[at..]);
    let stops = load.simd_ne(u8x32::splat(b' '))
        & load.simd_ne(u8x32::splat(b'\t'))
        & load.simd_ne(u8x32::splat(b'\n'))
        & load.simd_ne(u8x32::splat(b'\r'));
    first_set(stops.to_bitmask())
}

/// The run, byte by byte.
fn blank_few(bytes: &[u8]) -> usize
    ensures run { result ≡ blank_run bytes.now }
    ensures within { result ≤ length bytes.now }
{
    bytes
        .iter()
        .take_while(|byte| is_blank_byte(**byte))
        .count()
}

/// The length of the longest prefix of space, tab, LF and CR.
pub fn blank_run(bytes: &[u8]) -> usize
    ensures run { result ≡ blank_run bytes.now }
    ensures within { result ≤ length bytes.now }
{
    let mut at = 0;
    while bytes.len() - at >= LANES {
        let run = blank_in_load(bytes, at);
        if run < LANES {
            return at + run;
        }
        at += LANES;
    }
    at + blank_few(&bytes[at..])
}
