//! One image resource block.
//!
//! `8BIM` | id, 2 bytes | name, a length byte and that many, padded | size, 4 bytes | data, padded
//!
//! Numbers are big-endian. A block is read by its head alone: the name and the data are passed over,
//! so it can be read from a device that must not read them.
ghost use Rattle.std.specs.Prelude.{◌≡◌, ℕ, ◌+◌, ◌-◌, ◌^◌, ◌≤◌, ◌<◌, List, length, take, drop, min, IfSome};
ghost use Rattle.irb_iptc.specs.Reading.{BlockOf, HeadFits, HeadOf, IsNamed};
ghost use Rattle.irb_iptc.specs.Resources.{name_room};

use crate::block::Block;
use byteorder::{BigEndian, ByteOrder};

const SIGNATURE: &[u8] = b"8BIM";

/// What the first seven bytes of the rest of a list say.
#[derive(Clone, Copy, Debug, PartialEq, Eq)]
pub enum Head {
    /// No block begins, so the list ends.
    End,
    /// The bytes end inside the block.
    Cut,
    /// A block of this id, whose size stands so many bytes after its start.
    Named(u16, u16),
}

/// How many bytes a name takes after its length byte.
fn name_room(count: u8) -> u16
    ensures { result ≡ name_room count }
{
    let count = count as u16;
    count + (count + 1) % 2
}

/// What the first bytes of the rest of a list say, of which `left` bytes are there.
pub fn head_of(piece: &[u8], left: u64) -> Head
    requires { length piece.now ≡ min 7 left }
    ensures room { HeadFits left result }
    ensures is { (rest : List ℕ) → length rest ≡ left → piece.now ≡ take 7 rest → HeadOf rest result }
{
    if !piece.starts_with(SIGNATURE) {
        Head::End
    } else if piece.len() < 7 {
        Head::Cut
    } else {
        let size_at = 7 + name_room(piece[6]);
        if left < size_at as u64 + 4 {
            Head::Cut
        } else {
            Head::Named(BigEndian::read_u16(&piece[4..]), size_at)
        }
    }
}

/// The block at `start` whose size these four bytes give. None where its data passes `end`.
pub fn block_of(start: u64, id: u16, size_at: u16, piece: &[u8], end: u64) -> Option<Block>
    requires piece { length piece.now ≡ 4 }
    requires room { start + size_at + 4 ≤ end }
    ensures within { IfSome result (λ b. (b.start ≡ start) × (b.body ≡ start + size_at + 4) × (b.body + b.size + b.pad ≤ end)) }
    ensures is { (rest : List ℕ) → start + length rest ≡ end → IsNamed rest id size_at
        → piece.now ≡ take 4 (drop size_at rest) → BlockOf rest start result }
{
    let size = BigEndian::read_u32(piece);
    let body = start + size_at as u64 + 4;
    let room = end - body;
    if room < size as u64 {
        return None;
    }
    let pad = if room > size as u64 {
        (size % 2) as u8
    } else {
        0
    };
    Some(Block {
        start,
        body,
        size,
        id,
        pad,
    })
}
