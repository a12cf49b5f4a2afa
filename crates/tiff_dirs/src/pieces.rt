//! The bytes of tables that were read, each kept once, or little more often.
ghost use Rattle.std.specs.Prelude.{◌≡◌, ℕ, ◌+◌, ◌≤◌, ◌++◌, ◌⊎◌, List, All, length, slice_get, IfOk, IfSome, IsTrue, Some, None};
ghost use Rattle.tiff_dirs.specs.Parts.{IsPart};
ghost use Rattle.tiff_dirs.specs.Kept.{Covers, Has, Holds, InPiece};

use std::alloc::Global;
use xmp_values::Memory;

/// Bytes of a file from a place on.
#[derive(Drop)]
pub struct Piece {
    pub start: u64,
    pub bytes: Vec<u8>,
}

/// Appends bytes. Where room is wanted, an eighth more is taken: so bytes are seldom moved, and
/// little stands empty.
fn extend(bytes: &mut Vec<u8>, more: &[u8]) -> Result<(), Memory>
    ensures { IfOk result (λ _. bytes.new.items ≡ bytes.old.items ++ more.now) }
{
    let len = bytes.len();
    if bytes.capacity().saturating_sub(len) < more.len() {
        bytes.reserve_exact(more.len().max(len / 8))?;
    }
    bytes.extend_from_slice(more)?;
    Ok(())
}

impl Piece {
    /// Whether a byte at a place is one of the bytes, or would be the next.
    fn touches(&self, at: u64) -> bool
        ensures { IsTrue result → (self.now.start ≤ at) × (at ≤ self.now.start + length self.now.bytes.items) }
    {
        self.start <= at && at - self.start <= self.bytes.len() as u64
    }

    /// Appends bytes of the file from a place on, but for those that are there.
    fn append(&mut self, start: u64, bytes: &[u8]) -> Result<(), Memory>
        requires begins { self.old.start ≤ start }
        requires touches { start ≤ self.old.start + length self.old.bytes.items }
        ensures holds { IfOk result (λ _. (file : List ℕ) → Holds file self.old → IsPart bytes.now start file → Holds file self.new) }
        ensures start { IfOk result (λ _. self.new.start ≡ self.old.start) }
        ensures longer { IfOk result (λ _. length self.old.bytes.items ≤ length self.new.bytes.items) }
        ensures all { IfOk result (λ _. start + length bytes.now ≤ self.new.start + length self.new.bytes.items) }
    {
        let known = self.bytes.len() - (start - self.start) as usize;
        if known < bytes.len() {
            extend(&mut self.bytes, &bytes[known..])?;
        }
        Ok(())
    }

    /// Whether so many bytes from a place on are there, and the last byte lies in a file of a length.
    fn has(&self, start: u64, size: u64, len: u64) -> bool
        ensures { IsTrue result → Has len start size self.now }
    {
        let count = self.bytes.len() as u64;
        self.start <= len
            && count <= len - self.start
            && self.start <= start
            && start - self.start <= count
            && size <= count - (start - self.start)
    }
}

/// The first piece to which a byte at a place may be appended, taken out, or else an empty one.
fn piece_at(alloc: Global, pieces: &mut Vec<Piece>, at: u64) -> Piece
    ensures begins { result.start ≤ at }
    ensures touches { at ≤ result.start + length result.bytes.items }
    ensures holds { (file : List ℕ) → All (Holds file) pieces.old.items → Holds file result × All (Holds file) pieces.new.items }
    ensures inside { (from to : ℕ) → InPiece pieces.old.items from to → InPiece pieces.new.items from to ⊎ Covers result from to }
{
    for k in 0..pieces.len() {
        if pieces[k].touches(at) {
            return pieces.remove(k);
        }
    }
    Piece {
        start: at,
        bytes: Vec::new(alloc),
    }
}

/// Takes out a piece that begins in a run of bytes or right after it, and is about four times as long at
/// most.
fn short_after(pieces: &mut Vec<Piece>, run: &Piece) -> Option<Piece>
    ensures begins { IfSome result (λ p. run.now.start ≤ p.start) }
    ensures touches { IfSome result (λ p. p.start ≤ run.now.start + length run.now.bytes.items) }
    ensures holds { IfSome result (λ p. (file : List ℕ) → All (Holds file) pieces.old.items → Holds file p × All (Holds file) pieces.new.items) }
    ensures inside { IfSome result (λ p. (from to : ℕ) → InPiece pieces.old.items from to → InPiece pieces.new.items from to ⊎ Covers p from to) }
    ensures none { result ≡ None → pieces.new.items ≡ pieces.old.items }
{
    for k in 0..pieces.len() {
        if run.touches(pieces[k].start) && pieces[k].bytes.len() / 4 <= run.bytes.len() {
            return Some(pieces.remove(k));
        }
    }
    None
}

/// Appends to a run of bytes the pieces that begin in it or right after it, but for those that are far
/// longer: a table isn't copied for each directory that stands before it. Of two pieces of which one
/// begins in the other, that one is then some four times as long, so what pieces have in common is little.
fn absorb(pieces: &mut Vec<Piece>, run: &mut Piece) -> Result<(), Memory>
    ensures holds { IfOk result (λ _. (file : List ℕ) → Holds file run.old → All (Holds file) pieces.old.items → Holds file run.new × All (Holds file) pieces.new.items) }
    ensures run { IfOk result (λ _. (from to : ℕ) → Covers run.old from to → Covers run.new from to) }
    ensures inside { IfOk result (λ _. (from to : ℕ) → InPiece pieces.old.items from to → InPiece pieces.new.items from to ⊎ Covers run.new from to) }
{
    let most = pieces.len();
    for _ in 0..most {
        let Some(piece) = short_after(pieces, run) else {
            return Ok(());
        };
        run.append(piece.start, piece.bytes.as_slice())?;
    }
    Ok(())
}

/// Keeps bytes of a file: they and the pieces that they meet or touch become one piece, but for far longer
/// ones behind them.
pub fn keep(alloc: Global, pieces: &mut Vec<Piece>, start: u64, bytes: &[u8]) -> Result<(), Memory>
    ensures holds { IfOk result (λ _. (file : List ℕ) → IsPart bytes.now start file → All (Holds file) pieces.old.items → All (Holds file) pieces.new.items) }
    ensures kept { IfOk result (λ _. InPiece pieces.new.items start (start + length bytes.now)) }
    ensures old { IfOk result (λ _. (from to : ℕ) → InPiece pieces.old.items from to → InPiece pieces.new.items from to) }
{
    let mut run = piece_at(alloc, pieces, start);
    run.append(start, bytes)?;
    absorb(pieces, &mut run)?;
    match pieces.push(run) {
        Ok(()) => Ok(()),
        Err(_) => Err(Memory),
    }
}

/// The first piece that has so many bytes from a place on, in a file of a length.
pub fn piece_with(pieces: &[Piece], start: u64, size: u64, len: u64) -> Option<usize>
    ensures { IfSome result (λ k. (p : Piece) × (slice_get pieces.now k ≡ Some p) × Has len start size p) }
{
    for k in 0..pieces.len() {
        if pieces[k].has(start, size, len) {
            return Some(k);
        }
    }
    None
}
