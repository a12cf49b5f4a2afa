//! The next block of bytes in memory.
ghost use Rattle.std.specs.Prelude.{◌≤◌, length, drop};
ghost use Rattle.irb_iptc.specs.Reading.{Further, NextIs};

use crate::block::Block;
use crate::head::{Head, block_of, head_of};

/// What stands next in a list.
pub enum Next {
    /// No block: the list ends.
    Ended,
    /// A block that the bytes end in.
    Short,
    /// A whole block.
    Found(Block),
}

/// What stands at a place of the bytes.
pub fn next_in(bytes: &[u8], start: usize) -> Next
    requires { start ≤ length bytes.now }
    ensures further { Further start (length bytes.now) result }
    ensures is { NextIs (drop start bytes.now) start result }
{
    let rest = &bytes[start..];
    match head_of(&rest[..rest.len().min(7)], rest.len() as u64) {
        Head::End => Next::Ended,
        Head::Cut => Next::Short,
        Head::Named(id, size_at) => {
            let size = &rest[size_at as usize..size_at as usize + 4];
            match block_of(start as u64, id, size_at, size, bytes.len() as u64) {
                Some(block) => Next::Found(block),
                None => Next::Short,
            }
        }
    }
}
