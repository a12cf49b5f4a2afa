// One long file of which a few pieces are stated, for limits that no file in memory reaches.
ghost use Rattle.std.specs.Prelude.{◌≡◌, ◌<◌, ◌≤◌, ◌-◌, ◌+◌, ◌^◌, ◌++◌, ◌∷◌, [], ℕ, min, drop, length, cond, IsTrue, IsErr, Ok, Err, OnOk, OnErr, IfOk, slice_index};
ghost use Rattle.std.specs.Str.{bytes_eq};
ghost use Rattle.xmp_base.specs.Device.{SizeCall, ReadCall, CreateCall, WriteCall, is_known, len_of};
ghost use Rattle.xmp_base.specs.Memory.{up};
ghost use Rattle.xmp_base.specs.Sparse.{byte_at, piece_byte, sparse_state};

use crate::{Desk, Failed, SizeStop};
use std::alloc::Global;
use std::marker::Model;
use xmp_values::Memory;

/// One file of a stated length, with stated pieces and zeros elsewhere.
///
/// It tells the length and no bytes, and records neither reads nor writes. `size` and `read_at`
/// never fail, `create` and `write_at` always do.
#[derive(Drop)]
pub struct SparseDesk {
    alloc: Global,
    name: String,
    size: u64,
    pieces: Vec<Piece>,
    faults: u64,
    misses: u64,
}

#[derive(Drop)]
struct Piece {
    place: u64,
    bytes: Vec<u8>,
}

impl Model for SparseDesk {
    ghost use Rattle.std.specs.Prelude.{map};
    ghost use Rattle.std.specs.String.{string_bytes};
    ghost use Rattle.xmp_base.specs.Sparse.{SparseFile};

    ghost Value = { SparseFile };

    ghost view = { λ d. record {
      name = string_bytes d.name;
      size = d.size;
      pieces = map (λ piece. (piece.place, piece.bytes.items)) d.pieces.items;
      faults = d.faults;
      misses = d.misses;
    } };
}

impl SparseDesk {
    /// A desk with one file of `length` zeros.
    ///
    /// # Errors
    /// `Memory`.
    pub fn new(alloc: Global, name: &str, length: u64) -> Result<SparseDesk, Memory>
        ensures { IfOk result (λ desk. desk ≡ record { name = name.now; size = length; pieces = []; faults = 0; misses = 0 }) }
    {
        let name = String::from_str(alloc, name)?;
        Ok(SparseDesk {
            alloc,
            name,
            size: length,
            pieces: Vec::new(alloc),
            faults: 0,
            misses: 0,
        })
    }

    /// States the bytes from a place on, over those that were stated before. What reaches past the
    /// file's end is never read.
    ///
    /// # Errors
    /// `Memory`; then nothing has changed.
    pub fn piece(&mut self, at: u64, bytes: &[u8]) -> Result<(), Memory>
        ensures ok { OnOk result (self.new ≡ record self.old { pieces = self.old.pieces ++ (at, bytes.now) ∷ [] }) }
        ensures err { OnErr result (self.new ≡ self.old) }
    {
        let bytes = bytes.to_vec(self.alloc)?;
        self.pieces.push(Piece { place: at, bytes })?;
        Ok(())
    }

    /// The byte at a place of the file.
    fn byte_at(&self, place: u64) -> u8
        ensures { result ≡ byte_at self.now place }
    {
        let mut byte = 0;
        for piece in self.pieces.iter() {
            byte = piece_byte(piece, place).unwrap_or(byte);
        }
        byte
    }

    /// Counts a failure.
    fn fault(&mut self)
        ensures fits { self.old.faults < 2 ^ 64 }
        ensures after { self.new ≡ record self.old { faults = up self.old.faults } }
    {
        self.faults = self.faults.saturating_add(1);
    }
}

/// The byte of a piece at this place of the file, if the piece covers the place.
fn piece_byte(piece: &Piece, place: u64) -> Option<u8>
    ensures { result ≡ piece_byte (piece.now.place, piece.now.bytes.items) place }
{
    let skipped = place.checked_sub(piece.place)?;
    piece.bytes.get(skipped as usize).copied()
}

impl Desk for SparseDesk {
    ghost state = { sparse_state };

    fn size(&mut self, name: &str) -> Result<u64, SizeStop>
        ensures call { SizeCall (sparse_state self.old) (sparse_state self.new) name.now result }
        ensures answer { result ≡ cond (bytes_eq self.old.name name.now) (Ok self.old.size) (Err SizeStop.Absent) }
        ensures after { self.new ≡ record self.old { misses = cond (bytes_eq self.old.name name.now) self.old.misses (up self.old.misses) } }
    {
        if self.name.as_str() == name {
            return Ok(self.size);
        }
        self.misses = self.misses.saturating_add(1);
        Err(SizeStop::Absent)
    }

    fn read_at(&mut self, name: &str, at: u64, to: &mut [u8]) -> Result<usize, Failed>
        requires { IsTrue (is_known (sparse_state self.old) name.now) }
        ensures call { ReadCall (sparse_state self.old) (sparse_state self.new) name.now at to.new result }
        ensures count { result ≡ Ok (min (self.old.size - at) (length to.old)) }
        ensures bytes { (k : ℕ) → k < min (self.old.size - at) (length to.old) → slice_index to.new k ≡ byte_at self.old (at + k) }
        ensures rest { drop (min (self.old.size - at) (length to.old)) to.new ≡ drop (min (self.old.size - at) (length to.old)) to.old }
        ensures after { self.new ≡ self.old }
    {
        let left = self.size.saturating_sub(at);
        let count = left.min(to.len() as u64) as usize;
        for (k, byte) in to[..count].iter_mut().enumerate() {
            *byte = self.byte_at(at + k as u64);
        }
        Ok(count)
    }

    fn create(&mut self, name: &str) -> Result<(), Failed>
        ensures call { CreateCall (sparse_state self.old) (sparse_state self.new) name.now result }
        ensures fails { IsErr result }
        ensures after { self.new ≡ record self.old { faults = up self.old.faults } }
    {
        self.fault();
        Err(Failed)
    }

    fn write_at(&mut self, name: &str, at: u64, from: &[u8]) -> Result<usize, Failed>
        requires known { IsTrue (is_known (sparse_state self.old) name.now) }
        requires within { at ≤ len_of (sparse_state self.old) name.now }
        requires room { at + length from.now < 2 ^ 64 }
        ensures call { WriteCall (sparse_state self.old) (sparse_state self.new) name.now at from.now result }
        ensures fails { IsErr result }
        ensures after { self.new ≡ record self.old { faults = up self.old.faults } }
    {
        self.fault();
        Err(Failed)
    }
}
