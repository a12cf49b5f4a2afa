//! Tables of a file of a device.
ghost use Rattle.std.specs.Prelude.{◌≡◌, ◌+◌, ◌≤◌, ◌<◌, ◌^◌, length, IsTrue, IfOk, OnErr, MatchResult};
ghost use Rattle.xmp_base.specs.Device.{Told, Rose, bytes_of, is_known, len_of};
ghost use Rattle.xmp_base.specs.Windows.{ReadInside};
ghost use Rattle.tiff_dirs.specs.Numbers.{number};
ghost use Rattle.tiff_dirs.specs.Parts.{IsPart};
ghost use Rattle.tiff_dirs.specs.Tables.{LoadCall, ItemsCall};
ghost use Rattle.tiff_dirs.specs.Walking.{Lies};

use crate::entry::{Entry, Part};
use crate::layout::Layout;
use crate::numbers::number_at;
use crate::stop::WalkStop;
use crate::types::size_of;
use std::alloc::Global;
use xmp_base::{Bytes, Desk, Failed, WindowStop, fill_from, window};

/// The `len` bytes of a file from `start` on. They are taken from a part of the file that was read
/// before, where they lie in it.
pub fn load<D: Desk>(
    alloc: Global,
    desk: &mut D,
    name: &str,
    near: &Part,
    start: u64,
    len: u64,
) -> Result<Bytes, WalkStop>
    requires known { IsTrue (is_known (D.state desk.old) name.now) }
    requires within { start + len ≤ len_of (D.state desk.old) name.now }
    requires fits { start + len < 2 ^ 64 }
    requires near { Told (D.state desk.old).files (λ files. IsPart near.now.bytes.now near.now.start (bytes_of files name.now)) }
    ensures call { LoadCall (D.state desk.old) (D.state desk.new) name.now start len result }
{
    if start >= near.start {
        let skipped = start - near.start;
        let there = near.bytes.len() as u64;
        if skipped <= there && len <= there - skipped {
            return copy(
                alloc,
                &near.bytes[skipped as usize..(skipped + len) as usize],
            );
        }
    }
    fetch(alloc, desk, name, start, len)
}

/// The `len` bytes of a file from `start` on, which are read.
pub fn fetch<D: Desk>(
    alloc: Global,
    desk: &mut D,
    name: &str,
    start: u64,
    len: u64,
) -> Result<Bytes, WalkStop>
    requires known { IsTrue (is_known (D.state desk.old) name.now) }
    requires within { start + len ≤ len_of (D.state desk.old) name.now }
    requires fits { start + len < 2 ^ 64 }
    ensures call { LoadCall (D.state desk.old) (D.state desk.new) name.now start len result }
{
    match window(alloc, desk, name, start, len as usize) {
        Ok(bytes) => Ok(bytes),
        Err(WindowStop::Device) => Err(WalkStop::Device),
        Err(WindowStop::Memory) => Err(WalkStop::Memory),
    }
}

/// A copy of bytes that were read before.
fn copy(alloc: Global, bytes: &[u8]) -> Result<Bytes, WalkStop>
    ensures { MatchResult result (λ copy. copy ≡ bytes.now) (λ stop. stop ≡ WalkStop.Memory) }
{
    match Bytes::from_slice(alloc, bytes) {
        Ok(copy) => Ok(copy),
        Err(_) => Err(WalkStop::Memory),
    }
}

/// The first `count` items of the value of an entry that lies in the file.
pub fn load_items<D: Desk>(
    alloc: Global,
    desk: &mut D,
    name: &str,
    layout: Layout,
    part: &Part,
    entry: &Entry,
    count: u64,
) -> Result<Bytes, WalkStop>
    requires known { IsTrue (is_known (D.state desk.old) name.now) }
    requires len { len_of (D.state desk.old) name.now ≡ part.now.len }
    requires part { Told (D.state desk.old).files (λ files. IsPart part.now.bytes.now part.now.start (bytes_of files name.now)) }
    requires lies { Lies layout part.now.len entry.now }
    requires most { count ≤ entry.now.count }
    ensures call { ItemsCall layout entry.now count (D.state desk.old) (D.state desk.new) name.now result }
{
    let width = size_of(layout, entry.code);
    load(alloc, desk, name, part, entry.value.start, width * count)
}

/// The number at a place of a file.
pub fn number_of<D: Desk>(
    desk: &mut D,
    name: &str,
    at: u64,
    width: u64,
    big: bool,
) -> Result<u64, Failed>
    requires known { IsTrue (is_known (D.state desk.old) name.now) }
    requires least { 1 ≤ width }
    requires most { width ≤ 8 }
    requires within { at + width ≤ len_of (D.state desk.old) name.now }
    requires fits { at + width < 2 ^ 64 }
    ensures calls { ReadInside (D.state desk.old) (D.state desk.new) name.now at (at + width) }
    ensures number { IfOk result (λ n. Told (D.state desk.old).files (λ files. n ≡ number big width at (bytes_of files name.now))) }
    ensures failed { OnErr result (Rose (D.state desk.old).faults (D.state desk.new).faults) }
{
    let mut buffer = [0u8; 8];
    let piece = &mut buffer[..width as usize];
    fill_from(desk, name, at, piece)?;
    Ok(number_at(piece, 0, width, big))
}
