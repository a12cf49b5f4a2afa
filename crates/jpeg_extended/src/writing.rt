//! The portions of a text, each in its segment.
//!
//! `FF E1 | length, 2 bytes, counting itself | signature | name | full length | offset | part`
ghost use Rattle.std.specs.Prelude.{◌≡◌, ◌+◌, ◌≤◌, ◌<◌, ◌++◌, length, take};
ghost use Rattle.jpeg_extended.specs.Tiling.{limit};
ghost use Rattle.jpeg_extended.specs.Written.{part_len, portion_at, portion_count, segment_len, segment_text};

use crate::joiner::SIGNATURE;
use xmp_values::Digits;

/// The most bytes of a text that one portion has.
const PART: usize = 65_400;

/// How many portions a text of so many bytes has.
pub fn portion_count(len: usize) -> usize
    ensures { result ≡ portion_count len }
{
    len.div_ceil(PART)
}

/// The length of the segment of portion `k`, from 0, of a text of `len` bytes.
pub fn segment_len(len: usize, k: usize) -> usize
    requires { k < portion_count len }
    ensures { result ≡ segment_len len k }
{
    79 + PART.min(len - PART * k)
}

/// Writes the segment of portion `k`, from 0, of a text of this name.
pub fn portion_into(text: &[u8], name: &Digits, k: usize, to: &mut [u8])
    requires within { length text.now ≤ limit }
    requires there { k < portion_count (length text.now) }
    requires room { length to.old ≡ segment_len (length text.now) k }
    ensures { to.new ≡ segment_text name.now (portion_at text.now k) }
{
    let offset = PART * k;
    let part = &text[offset..text.len().min(offset + PART)];
    let at = put(to, 0, &[0xff, 0xe1]);
    let at = put(to, at, &((77 + part.len()) as u16).to_be_bytes());
    let at = put(to, at, SIGNATURE);
    let at = put(to, at, name.bytes());
    let at = put(to, at, &(text.len() as u32).to_be_bytes());
    let at = put(to, at, &(offset as u32).to_be_bytes());
    put(to, at, part);
}

/// Puts a piece at a place, and answers the place after it.
fn put(to: &mut [u8], at: usize, piece: &[u8]) -> usize
    requires { at + length piece.now ≤ length to.old }
    ensures next { result ≡ at + length piece.now }
    ensures text { take result to.new ≡ take at to.old ++ piece.now }
{
    let end = at + piece.len();
    to[at..end].copy_from_slice(piece);
    end
}
