//! The portions of one text, and the text that they join to.
//!
//! `signature, 35 bytes | name, 32 digits | full length, 4 | offset, 4 | a part of the text`
ghost use Rattle.std.specs.Prelude.{◌≡◌, ◌&&◌, ◌++◌, [], IfOk, OnOk, OnErr, flat_map, length, map};
ghost use Rattle.jpeg_extended.specs.Heads.{AreKept, bytes_in};
ghost use Rattle.jpeg_extended.specs.Portions.{head_of, is_named, portion_of};
ghost use Rattle.std.specs.List.{list_all};
ghost use Rattle.std.specs.Str.{bytes_eq};
ghost use Rattle.xmp_values.specs.Digits.{capital, is_digit};
ghost use Rattle.jpeg_extended.specs.Joined.{JoinAnswer};

use crate::tiling::{ExtStop, Head, tile};
use byteorder::{BigEndian, ByteOrder};
use std::alloc::Global;
use std::marker::Model;
use xmp_base::FileSpan;
use xmp_values::{Bytes, Digits, Memory};

pub(crate) const SIGNATURE: &[u8] = b"http://ns.adobe.com/xmp/extension/\0";

/// The length of what stands before the part of the text.
const HEAD: usize = 75;

/// The most bytes after the length of a segment.
const LONGEST: u64 = 65_533;

impl Head {
    /// The head of a region's payload, of which the first 75 bytes are enough; None where that is no
    /// portion of the text of this name. Names are compared without regard to case.
    pub fn read(front: &[u8], payload: FileSpan, name: &Digits) -> Option<Head>
        ensures { result ≡ head_of name.now front.now payload }
    {
        let len = payload.end.saturating_sub(payload.start);
        if !is_named(front, len, name) {
            return None;
        }
        Some(Head {
            full: BigEndian::read_u32(&front[67..]),
            offset: BigEndian::read_u32(&front[71..]),
            len: (len - HEAD as u64) as u32,
            at: payload.start + HEAD as u64,
        })
    }
}

/// Whether a payload of `len` bytes, which begins so, is a portion of the text of this name.
fn is_named(front: &[u8], len: u64, name: &Digits) -> bool
    ensures { result ≡ is_named name.now front.now len }
{
    front.len() >= HEAD
        && HEAD as u64 <= len
        && len <= LONGEST
        && front.starts_with(SIGNATURE)
        && is_name(&front[35..67], name)
}

/// Whether these 32 bytes are the digits of a name, in capitals or not.
fn is_name(bytes: &[u8], name: &Digits) -> bool
    requires { length bytes.now ≡ 32 }
    ensures { result ≡ (list_all is_digit bytes.now && bytes_eq (map capital bytes.now) name.now) }
{
    match Digits::read(bytes) {
        Some(digits) => digits.bytes() == name.bytes(),
        None => false,
    }
}

/// The portions of the text that a note names.
#[derive(Drop)]
pub struct Joiner {
    alloc: Global,
    name: Digits,
    heads: Vec<Head>,
    kept: Vec<u8>,
}

impl Model for Joiner {
    ghost use Rattle.std.specs.Prelude.{map};
    ghost use Rattle.jpeg_extended.specs.Heads.{AreKept, portion_in};
    ghost use Rattle.jpeg_extended.specs.Joined.{Joining};

    ghost Value = { Joining };

    ghost view = { λ j. record { name = j.name; portions = map (portion_in j.kept.items) j.heads.items } };

    ghost invariant = { λ j. AreKept j.kept.items j.heads.items };
}

impl Joiner {
    /// A joiner without portions.
    pub fn new(alloc: Global, note: Digits) -> Joiner
        ensures { result ≡ record { name = note; portions = [] } }
    {
        Joiner {
            alloc,
            name: note,
            heads: Vec::new(alloc),
            kept: Vec::new(alloc),
        }
    }

    /// Keeps the portion that a region's payload is. One of another name, and a payload that is no
    /// portion, change nothing.
    ///
    /// # Errors
    /// `Memory`; then nothing has changed.
    pub fn add(&mut self, payload: &[u8]) -> Result<(), Memory>
        ensures ok { OnOk result (self.new ≡ record self.old { portions = self.old.portions ++ portion_of self.old.name payload.now }) }
        ensures err { OnErr result (self.new ≡ self.old) }
    {
        let whole = FileSpan {
            start: 0,
            end: payload.len() as u64,
        };
        let Some(head) = Head::read(payload, whole, &self.name) else {
            return Ok(());
        };
        let at = self.kept.len() as u64;
        self.kept.extend_from_slice(&payload[HEAD..])?;
        self.heads.push(Head { at, ..head })?;
        Ok(())
    }

    /// The text that the portions join to; None where there are none.
    ///
    /// # Errors
    /// The first of `ExtStop` that holds.
    pub fn finish(self) -> Result<Option<Bytes>, ExtStop>
        ensures { JoinAnswer self.portions result }
    {
        let Joiner {
            alloc,
            mut heads,
            kept,
            ..
        } = self;
        match tile(&mut heads)? {
            Some(_) => Ok(Some(joined(alloc, heads.as_slice(), kept.as_slice())?)),
            None => Ok(None),
        }
    }
}

/// The kept bytes of the heads, one after another.
fn joined(alloc: Global, heads: &[Head], kept: &[u8]) -> Result<Bytes, Memory>
    requires { AreKept kept.now heads.now }
    ensures { IfOk result (λ text. text ≡ flat_map (bytes_in kept.now) heads.now) }
{
    let mut text = Vec::new(alloc);
    for head in heads {
        let at = head.at as usize;
        text.extend_from_slice(&kept[at..at + head.len as usize])?;
    }
    Ok(Bytes::from_vec(text))
}
