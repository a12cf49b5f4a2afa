//! The list in a range of a device's file. No data of a block is read.
ghost use Rattle.std.specs.Prelude.{◌≡◌, ◌+◌, ◌-◌, ◌≤◌, ◌^◌, ◌<◌, length, IfOk, IsTrue, OnErr};
ghost use Rattle.xmp_base.specs.Device.{Told, Rose, bytes_of, is_known, len_of};
ghost use Rattle.irb_iptc.specs.Reading.{Further, IsNamed, NextIs};
ghost use Rattle.irb_iptc.specs.Scanning.{ScanCall, ScanReads, range_of};

use crate::head::{Head, block_of, head_of};
use crate::list::Resources;
use crate::reading::Next;
use crate::stops::ScanStop;
use std::alloc::Global;
use xmp_base::{Desk, Failed, fill_from};

/// What stands at a place of a file, where the range of the list ends at `end`.
fn next_from<D: Desk>(desk: &mut D, name: &str, start: u64, end: u64) -> Result<Next, Failed>
    requires known { IsTrue (is_known (D.state desk.old) name.now) }
    requires order { start ≤ end }
    requires within { end ≤ len_of (D.state desk.old) name.now }
    requires told { Told (D.state desk.old).files (λ files. end ≤ length (bytes_of files name.now)) }
    ensures calls { ScanReads (D.state desk.old) (D.state desk.new) name.now start end }
    ensures further { IfOk result (Further start end) }
    ensures is { IfOk result (λ next. Told (D.state desk.old).files (λ files. NextIs (range_of (bytes_of files name.now) start end) start next)) }
    ensures failed { OnErr result (Rose (D.state desk.old).faults (D.state desk.new).faults) }
{
    let left = end - start;
    let mut buffer = [0u8; 7];
    let piece = &mut buffer[..left.min(7) as usize];
    fill_from(desk, name, start, piece)?;
    match head_of(piece, left) {
        Head::End => Ok(Next::Ended),
        Head::Cut => Ok(Next::Short),
        Head::Named(id, size_at) => sized_from(desk, name, start, id, size_at, end),
    }
}

/// The block that begins at a place of a file, whose size stands `size_at` bytes on.
fn sized_from<D: Desk>(
    desk: &mut D,
    name: &str,
    start: u64,
    id: u16,
    size_at: u16,
    end: u64,
) -> Result<Next, Failed>
    requires known { IsTrue (is_known (D.state desk.old) name.now) }
    requires room { start + size_at + 4 ≤ end }
    requires within { end ≤ len_of (D.state desk.old) name.now }
    requires told { Told (D.state desk.old).files (λ files. end ≤ length (bytes_of files name.now)) }
    requires named { Told (D.state desk.old).files (λ files. IsNamed (range_of (bytes_of files name.now) start end) id size_at) }
    ensures calls { ScanReads (D.state desk.old) (D.state desk.new) name.now start end }
    ensures further { IfOk result (Further start end) }
    ensures is { IfOk result (λ next. Told (D.state desk.old).files (λ files. NextIs (range_of (bytes_of files name.now) start end) start next)) }
    ensures failed { OnErr result (Rose (D.state desk.old).faults (D.state desk.new).faults) }
{
    let mut buffer = [0u8; 4];
    let piece = &mut buffer[..];
    fill_from(desk, name, start + size_at as u64, piece)?;
    match block_of(start, id, size_at, piece, end) {
        Some(block) => Ok(Next::Found(block)),
        None => Ok(Next::Short),
    }
}

impl Resources {
    /// The blocks of the list in `len` bytes of a device's file, from `at` on, by places in the
    /// file: those that `of` finds in these bytes. The heads of the blocks are read, and no data.
    /// A fault is the place of the block that the range ends in.
    pub fn scan<D: Desk>(
        alloc: Global,
        desk: &mut D,
        name: &str,
        at: u64,
        len: u64,
    ) -> Result<Resources, ScanStop>
        requires known { IsTrue (is_known (D.state desk.old) name.now) }
        requires within { at + len ≤ len_of (D.state desk.old) name.now }
        requires fits { at + len < 2 ^ 64 }
        requires told { Told (D.state desk.old).files (λ files. at + len ≤ length (bytes_of files name.now)) }
        ensures { ScanCall (D.state desk.old) (D.state desk.new) name.now at (at + len) result }
    {
        let end = at + len;
        let mut blocks = Vec::new(alloc);
        let mut start = at;
        'next: loop {
            match next_from(desk, name, start, end) {
                Ok(Next::Ended) => break,
                Ok(Next::Short) => return Err(ScanStop::Fault(start)),
                Ok(Next::Found(block)) => {
                    start = block.end();
                    let Ok(()) = blocks.push(block) else {
                        return Err(ScanStop::Memory);
                    };
                }
                Err(Failed) => return Err(ScanStop::Device),
            }
        }
        Ok(Resources { blocks, end: start })
    }
}
