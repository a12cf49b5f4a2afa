//! One region, read piece by piece.
//!
//! A reader says which bytes it wants next and is given them. It never wants a byte that may
//! stand after a tail's marker, so it can be run over a device that must not read a tail.
ghost use Rattle.std.specs.Prelude.{◌≡◌, ℕ, ◌+◌, ◌-◌, ◌≤◌, ◌<◌, List, length, take, drop, min};
ghost use Rattle.jpeg_regions.specs.Wanted.{count_of, least_of, payload_of};
ghost use Rattle.jpeg_regions.specs.declared.reading.Wants.TheVariants.{Start};

use crate::kind::{RegionKind, front_len, kind_of};
use crate::marker::{Class, class_of};
use std::mem::size_of;
use xmp_base::FileSpan;
use xmp_values::Rule;

/// The bytes that are wanted next.
#[derive(Clone, Copy, Debug, PartialEq, Eq)]
pub enum Wants {
    /// The first two bytes of a region: FF, and FF or the marker's second byte.
    Start,
    /// The byte after FF bytes.
    Marker,
    /// The length after this marker.
    Length(u8),
    /// The beginning of a payload, after this marker, with this length.
    Payload(u8, u16),
}

/// A region that was found.
#[derive(Clone, Copy, Debug, PartialEq, Eq)]
pub struct Found {
    pub kind: RegionKind,
    pub start: u64,
    pub payload: u64,
    pub end: u64,
}

// A list of a million regions is 32 MB.
const _: () = prove!(size_of::<Found>() <= 32);

impl Found {
    ghost use Rattle.jpeg_regions.specs.Reads.{payload_end};

    /// A tail has no payload.
    pub fn payload_end(&self) -> u64
        ensures { result ≡ payload_end self.now.kind self.now.payload self.now.end }
    {
        match self.kind {
            RegionKind::Tail => self.payload,
            _ => self.end,
        }
    }
}

/// A region that begins at `start` and has been read up to `at`, in a file of `len` bytes.
#[derive(Clone, Copy)]
pub struct Reading {
    pub len: u64,
    pub start: u64,
    pub at: u64,
    pub wants: Wants,
    ghost order: { start + least_of wants ≤ at },
    ghost room: { at + payload_of wants ≤ len },
    ghost first: { wants ≡ Start → at ≡ start },
}

/// What the wanted bytes lead to.
pub enum Step {
    /// More bytes are wanted.
    More(Reading),
    /// A region that isn't the tail.
    Inner(Found),
    /// The tail.
    Last(Found),
}

impl Reading {
    ghost use Rattle.std.specs.Prelude.{◌∷◌};
    ghost use Rattle.jpeg_regions.specs.Reads.{Steps, Reads, Progress, Finds, FoundInner, AfterFill, AfterMarker, AfterLength};
    ghost use Rattle.jpeg_regions.specs.Kinds.{front_len};

    /// A region at `start`, of which nothing has been read.
    pub fn new(len: u64, start: u64) -> Reading
        requires { start ≤ len }
        ensures len { result.len ≡ len }
        ensures start { result.start ≡ start }
        ensures at { result.at ≡ start }
        ensures wants { result.wants ≡ Wants.Start }
    {
        Reading {
            len,
            start,
            at: start,
            wants: Wants::Start,
        }
    }

    /// What is wanted next, as far as the file has it.
    pub fn wanted(&self) -> FileSpan
        ensures start { result.start ≡ self.now.at }
        ensures end { result.end ≡ self.now.at + min (count_of self.now.wants) (self.now.len - self.now.at) }
        ensures most { result.end ≤ result.start + 75 }
    {
        let count = match self.wants {
            Wants::Start | Wants::Length(_) => 2,
            Wants::Marker => 1,
            Wants::Payload(marker, len) => (front_len(marker) as u64).min(len as u64),
        };
        FileSpan {
            start: self.at,
            end: self.at + count.min(self.len - self.at),
        }
    }

    /// Goes on with the bytes that were wanted.
    pub fn step(self, piece: &[u8]) -> Result<Step, Rule>
        requires { length piece.now ≡ min (count_of self.wants) (self.len - self.at) }
        ensures progress { Progress self.len self.start self.at self.wants result }
        ensures steps { (file : List ℕ) → length file ≡ self.len → Reads file self.start self.at self.wants
            → piece.now ≡ take (count_of self.wants) (drop self.at file) → Steps file self.start result }
    {
        match self.wants {
            Wants::Start => self.begin(piece),
            Wants::Marker if piece.is_empty() => Err(Rule::Truncated),
            Wants::Marker => self.mark(self.at, piece[0]),
            Wants::Length(marker) => self.measure(marker, piece),
            Wants::Payload(marker, len) => Ok(Step::Inner(self.complete(marker, len, piece))),
        }
    }

    /// The first two bytes of a region.
    fn begin(self, piece: &[u8]) -> Result<Step, Rule>
        requires piece { length piece.now ≡ min 2 (self.len - self.at) }
        requires first { self.at ≡ self.start }
        ensures progress { Progress self.len self.start self.at Wants.Start result }
        ensures steps { (file : List ℕ) → length file ≡ self.len → self.at ≡ self.start
            → piece.now ≡ take 2 (drop self.at file) → Steps file self.start result }
    {
        if piece.is_empty() {
            Err(Rule::NoTail)
        } else if piece[0] != 0xff {
            Err(Rule::BadMarker)
        } else if piece.len() == 1 {
            Err(Rule::Truncated)
        } else {
            self.mark(self.at + 1, piece[1])
        }
    }

    /// The byte at `place`, after FF bytes.
    fn mark(self, place: u64, byte: u8) -> Result<Step, Rule>
        requires at { self.at ≤ place }
        requires order { self.start < place }
        requires within { place < self.len }
        ensures progress { Progress self.len self.start self.at Wants.Marker result }
        ensures steps { (file : List ℕ) → length file ≡ self.len → AfterFill file self.start place
            → drop place file ≡ byte ∷ drop (place + 1) file → Steps file self.start result }
    {
        let next = place + 1;
        match class_of(byte) {
            Class::Fill => Ok(Step::More(self.with(next, Wants::Marker))),
            Class::Refused => Err(Rule::BadMarker),
            Class::Single => Ok(Step::Inner(self.find(RegionKind::Alone, next, next))),
            Class::Last => Ok(Step::Last(self.find(RegionKind::Tail, next, self.len))),
            Class::Sized => Ok(Step::More(self.with(next, Wants::Length(byte)))),
        }
    }

    /// The two bytes of a length, which counts itself.
    fn measure(self, marker: u8, piece: &[u8]) -> Result<Step, Rule>
        requires piece { length piece.now ≤ self.len - self.at }
        requires order { self.start < self.at }
        ensures progress { Progress self.len self.start self.at (Wants.Length marker) result }
        ensures steps { (file : List ℕ) → length file ≡ self.len → AfterMarker file self.start self.at marker
            → piece.now ≡ take 2 (drop self.at file) → Steps file self.start result }
    {
        if piece.len() < 2 {
            return Err(Rule::Truncated);
        }
        let length = piece[0] as u16 * 256 + piece[1] as u16;
        if length < 2 {
            return Err(Rule::BadLength);
        }
        let payload = self.at + 2;
        if self.len - payload < length as u64 - 2 {
            return Err(Rule::Truncated);
        }
        Ok(Step::More(self.with(payload, Wants::Payload(marker, length - 2))))
    }

    /// The beginning of a payload of `len` bytes.
    fn complete(self, marker: u8, len: u16, piece: &[u8]) -> Found
        requires room { self.at + len ≤ self.len }
        requires order { self.start < self.at }
        ensures progress { Finds self.len self.start self.at (Wants.Payload marker len) result }
        ensures found { (file : List ℕ) → length file ≡ self.len → AfterLength file self.start self.at marker len
            → piece.now ≡ take (min (front_len marker) len) (drop self.at file) → FoundInner file result }
    {
        self.find(kind_of(marker, piece), self.at, self.at + len as u64)
    }

    fn with(self, at: u64, wants: Wants) -> Reading
        requires order { self.start + least_of wants ≤ at }
        requires room { at + payload_of wants ≤ self.len }
        requires first { wants ≡ Start → at ≡ self.start }
        ensures len { result.len ≡ self.len }
        ensures start { result.start ≡ self.start }
        ensures at { result.at ≡ at }
        ensures wants { result.wants ≡ wants }
    {
        Reading {
            len: self.len,
            start: self.start,
            at,
            wants,
        }
    }

    fn find(self, kind: RegionKind, payload: u64, end: u64) -> Found
        ensures { result ≡ record { kind = kind; start = self.start; payload = payload; end = end } }
    {
        Found {
            kind,
            start: self.start,
            payload,
            end,
        }
    }
}
