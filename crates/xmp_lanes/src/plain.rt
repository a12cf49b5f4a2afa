//! Bytes that stand for themselves in a written text.
ghost use Rattle.std.specs.Prelude.{◌≡◌, ◌+◌, ◌≤◌, length};
ghost use Rattle.std.specs.Simd.Lanes.{chunk};
ghost use Rattle.xmp_lanes.specs.Runs.{is_escaped, is_escaped_in_text, plain_run};
ghost use Rattle.xmp_lanes.specs.declared.plain.Escape.TheVariants.{Text, Attribute};

use crate::loads::{LANES, first_set};
use std::simd::prelude::*;

/// Where a text is written.
#[derive(Clone, Copy, Debug, PartialEq, Eq)]
pub enum Escape {
    /// Between tags.
    Text,
    /// As the value of an attribute, in double quotes.
    Attribute,
}

fn is_escaped_in_text(byte: u8) -> bool
    ensures { result ≡ is_escaped_in_text byte }
{
    byte == b'&' || byte == b'<' || byte == b'>' || byte == b'\r'
}

/// Whether the byte is escaped there.
fn is_escaped(place: Escape, byte: u8) -> bool
    ensures { result ≡ is_escaped place byte }
{
    match place {
        Escape::Text => is_escaped_in_text(byte),
        Escape::Attribute => {
            byte == b'"' || byte == b'\t' || byte == b'\n' || is_escaped_in_text(byte)
        }
    }
}

/// The run in one load, between tags.
#[inline(always)]
fn text_in_load(bytes: &[u8], at: usize) -> usize
    requires { at + LANES ≤ length bytes.now }
    ensures { result ≡ plain_run Text (chunk at 32 bytes.now) }
{
    let load = u8x32::from_slice(&bytes[at..]);
    let stops = load.simd_eq(u8x32::splat(b'&'))
        | load.simd_eq(u8x32::splat(b'<'))
        | load.simd_eq(u8x32::splat(b'>'))
        | load.simd_eq(u8x32::splat(b'\r'));
    first_set(stops.to_bitmask())
}

/// The run in one load, in an attribute.
#[inline(always)]
fn attribute_in_load(bytes: &[u8], at: usize) -> usize
    requires { at + LANES ≤ length bytes.now }
    ensures { result ≡ plain_run Attribute (chunk at 32 bytes.now) }
{
    let load = u8x32::from_slice(&bytes[at..]);
    let stops = load.simd_eq(u8x32::splat(b'&'))
        | load.simd_eq(u8x32::splat(b'<'))
        | load.simd_eq(u8x32::splat(b'>'))
        | load.simd_eq(u8x32::splat(b'\r'))
        | load.simd_eq(u8x32::splat(b'"'))
        | load.simd_eq(u8x32::splat(b'\t'))
        | load.simd_eq(u8x32::splat(b'\n'));
    first_set(stops.to_bitmask())
}

/// The run in one load.
#[inline(always)]
fn plain_in_load(bytes: &[u8], at: usize, place: Escape) -> usize
    requires { at + LANES ≤ length bytes.now }
    ensures run { result ≡ plain_run place (chunk at 32 bytes.now) }
    ensures within { result ≤ 32 }
{
    match place {
        Escape::Text => text_in_load(bytes, at),
        Escape::Attribute => attribute_in_load(bytes, at),
    }
}

/// The run, byte by byte.
fn plain_few(bytes: &[u8], place: Escape) -> usize
    ensures run { result ≡ plain_run place bytes.now }
    ensures within { result ≤ length bytes.now }
{
    bytes
        .iter()
        .take_while(|byte| !is_escaped(place, **byte))
        .count()
}

/// The length of the longest prefix without a byte that is escaped there.
pub fn plain_run(bytes: &[u8], place: Escape) -> usize
    ensures run { result ≡ plain_run place bytes.now }
    ensures within { result ≤ length bytes.now }
{
    let mut at = 0;
    while bytes.len() - at >= LANES {
        let run = plain_in_load(bytes, at, place);
        at += run;
        if run < LANES {
            return at;
        }
    }
    at + plain_few(&bytes[at..], place)
}
