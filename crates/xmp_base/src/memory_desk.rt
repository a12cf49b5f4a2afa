// Files in memory, on a desk that fails where it is told to.
ghost use Rattle.std.specs.Prelude.{◌≡◌, ◌<◌, ◌≤◌, ◌-◌, ◌+◌, ◌^◌, ◌++◌, ◌∷◌, [], IsTrue, IsSome, IsErr, Err, OnOk, OnErr, min, map, take, drop, length, slice_get};
ghost use Rattle.std.specs.List.{position};
ghost use Rattle.std.specs.Str.{bytes_eq};
ghost use Rattle.std.specs.String.{string_bytes};
ghost use Rattle.std.specs.Option.{option_map};
ghost use Rattle.std.specs.FinMap.{get};
ghost use Rattle.xmp_base.specs.Device.{SizeCall, ReadCall, CreateCall, WriteCall, put_at, bytes_of, is_known, len_of};
ghost use Rattle.xmp_base.specs.Memory.{Creates, FailsExactly, Reads, Stored, Tears, Writes, desk_state, files_of, is_planned_next, moved, new_desk, noted, put_into, read_count, size_after, size_answer, up};

use crate::{Desk, Failed, SizeStop};
use std::alloc::{AllocError, Global};
use std::marker::Model;
use xmp_values::Memory;

/// Files in memory that tell all that is done with them.
///
/// Each call of the trait counts as one, from 1. A call fails exactly where its number is planned
/// or its growth is refused, and `wants` counts the latter. A write that is planned to fail first
/// puts half of its piece, rounded down; any other failure changes no file.
#[derive(Drop)]
pub struct MemoryDesk {
    alloc: Global,
    files: Vec<Entry>,
    reads: Vec<Move>,
    wrote: Vec<Move>,
    plan: Vec<u64>,
    most: u64,
    calls: u64,
    wants: u64,
    faults: u64,
    misses: u64,
}

#[derive(Drop)]
struct Entry {
    name: String,
    bytes: Vec<u8>,
}

/// What one read or write moved.
#[derive(Drop)]
struct Move {
    name: String,
    place: u64,
    count: u64,
}

impl Model for MemoryDesk {
    ghost use Rattle.std.specs.Prelude.{◌≡◌, ◌<◌, ◌^◌, [], map};
    ghost use Rattle.std.specs.String.{string_bytes};
    ghost use Rattle.xmp_base.specs.MemoryState.{DeskMemory};

    ghost Value = { DeskMemory };

    ghost view = { λ d. record {
      files = map (λ e. (string_bytes e.name, e.bytes.items)) d.files.items;
      reads = map (λ m. (string_bytes m.name, m.place, m.count)) d.reads.items;
      wrote = map (λ m. (string_bytes m.name, m.place, m.count)) d.wrote.items;
      plan = d.plan.items;
      most = d.most;
      calls = d.calls;
      wants = d.wants;
      faults = d.faults;
      misses = d.misses;
    } };

    ghost invariant = { λ d. (0 < d.most) × (d.plan.items ≡ [] → d.faults ≡ d.wants) };
}

impl MemoryDesk {
    /// A desk without files, which fails at no call and cuts no move.
    pub fn new(alloc: Global) -> MemoryDesk
        ensures { result ≡ new_desk }
    {
        MemoryDesk {
            alloc,
            files: Vec::new(alloc),
            reads: Vec::new(alloc),
            wrote: Vec::new(alloc),
            plan: Vec::new(alloc),
            most: u64::MAX,
            calls: 0,
            wants: 0,
            faults: 0,
            misses: 0,
        }
    }

    /// Puts in a file, in the place of the one that has its name. It counts as no call.
    ///
    /// # Errors
    /// `Memory`; then nothing has changed.
    pub fn add(&mut self, name: &str, bytes: &[u8]) -> Result<(), Memory>
        ensures ok { OnOk result (Stored self.old self.new name.now bytes.now) }
        ensures err { OnErr result (self.new ≡ self.old) }
    {
        let bytes = bytes.to_vec(self.alloc)?;
        self.put_file(name, bytes)?;
        Ok(())
    }

    /// Plans that the call of this number, from 1, fails. A number of the past plans nothing.
    ///
    /// # Errors
    /// `Memory`; then nothing has changed.
    pub fn fail(&mut self, call: u64) -> Result<(), Memory>
        ensures ok { OnOk result (self.new ≡ record self.old { plan = self.old.plan ++ call ∷ [] }) }
        ensures err { OnErr result (self.new ≡ self.old) }
    {
        self.plan.push(call)?;
        Ok(())
    }

    /// From now on a read or a write moves at most so many bytes.
    pub fn cut(&mut self, most: u64)
        requires { 0 < most }
        ensures { self.new ≡ record self.old { most = most } }
    {
        self.most = most;
    }

    /// The bytes of the file of this name, if there is one.
    pub fn bytes_of(&self, name: &str) -> Option<&[u8]>
        ensures { option_map (λ bytes. bytes.now) result ≡ get (files_of self.now.files) name.now }
    {
        let files = self.files.as_slice();
        match place_of(files, name) {
            Some(entry) => Some(files[entry].bytes.as_slice()),
            None => None,
        }
    }

    /// The place and the number of bytes of the write of this index, from 0, if there were so many.
    pub fn wrote_at(&self, i: usize) -> Option<(u64, u64)>
        ensures { result ≡ option_map (λ move. (move.1, move.2)) (slice_get self.now.wrote i) }
    {
        let wrote = self.wrote.get(i)?;
        Some((wrote.place, wrote.count))
    }

    /// How many calls were refused memory.
    pub fn wants(&self) -> u64
        ensures value { result ≡ self.now.wants }
        // Where no failure is planned, each failure was a want of memory.
        ensures unplanned { self.now.plan ≡ [] → self.now.faults ≡ self.now.wants }
    {
        self.wants
    }

    /// Counts a call, and answers whether it is to fail.
    fn is_planned(&mut self) -> bool
        ensures calls { self.new ≡ record self.old { calls = up self.old.calls } }
        ensures planned { result ≡ is_planned_next self.old }
        ensures fits { (self.old.faults < 2 ^ 64) × (self.old.misses < 2 ^ 64) × (self.old.wants < 2 ^ 64) }
    {
        let _ = (self.faults, self.misses, self.wants);
        self.calls = self.calls.saturating_add(1);
        self.plan.contains(&self.calls)
    }

    /// Counts a planned failure.
    fn fault(&mut self)
        requires { 0 < length self.old.plan }
        ensures fits { self.old.faults < 2 ^ 64 }
        ensures after { self.new ≡ record self.old { faults = up self.old.faults } }
    {
        self.faults = self.faults.saturating_add(1);
    }

    /// Counts a name that isn't there.
    fn miss(&mut self)
        ensures fits { self.old.misses < 2 ^ 64 }
        ensures after { self.new ≡ record self.old { misses = up self.old.misses } }
    {
        self.misses = self.misses.saturating_add(1);
    }

    /// Counts a failure for want of memory.
    fn want(&mut self)
        ensures fits { self.old.faults < 2 ^ 64 }
        ensures after { self.new ≡ record self.old { faults = up self.old.faults; wants = up self.old.wants } }
    {
        self.faults = self.faults.saturating_add(1);
        self.wants = self.wants.saturating_add(1);
    }

    /// How many bytes a read into a slice of this length moves.
    fn read_count(&self, name: &str, at: u64, room: usize) -> usize
        ensures value { result ≡ read_count self.now name.now at room }
        ensures most { 0 < self.now.most }
    {
        let length = match self.bytes_of(name) {
            Some(bytes) => bytes.len(),
            None => 0,
        };
        let left = (length as u64).saturating_sub(at);
        left.min(room as u64).min(self.most) as usize
    }

    /// How many bytes of a piece of this length a write moves.
    fn write_count(&self, length: usize) -> usize
        ensures value { result ≡ min length self.now.most }
        ensures most { 0 < self.now.most }
    {
        (length as u64).min(self.most) as usize
    }

    /// Notes a read. At an error nothing has changed.
    fn note_read(&mut self, name: &str, at: u64, count: u64) -> Result<(), AllocError>
        ensures ok { OnOk result (self.new ≡ record self.old { reads = self.old.reads ++ (name.now, at, count) ∷ [] }) }
        ensures err { OnErr result (self.new ≡ self.old) }
    {
        note(self.alloc, &mut self.reads, name, at, count)
    }

    /// Notes a write. At an error nothing has changed.
    fn note_write(&mut self, name: &str, at: u64, count: u64) -> Result<(), AllocError>
        ensures ok { OnOk result (self.new ≡ noted self.old name.now at count) }
        ensures err { OnErr result (self.new ≡ self.old) }
    {
        note(self.alloc, &mut self.wrote, name, at, count)
    }

    /// Takes the last note of a write back.
    fn forget_write(&mut self)
        ensures { self.new ≡ record self.old { wrote = take (length self.old.wrote - 1) self.old.wrote } }
    {
        let _ = self.wrote.pop();
    }

    /// Copies bytes of a file.
    fn copy_at(&self, name: &str, at: u64, to: &mut [u8])
        requires { length to.old ≤ length (bytes_of (files_of self.now.files) name.now) - at }
        ensures { to.new ≡ take (length to.old) (drop at (bytes_of (files_of self.now.files) name.now)) }
    {
        if to.is_empty() {
            return;
        }
        if let Some(bytes) = self.bytes_of(name) {
            let at = at as usize;
            to.copy_from_slice(&bytes[at..at + to.len()]);
        }
    }

    /// Puts in a file, in the place of the one that has its name. At an error nothing has changed.
    fn put_file(&mut self, name: &str, bytes: Vec<u8>) -> Result<(), AllocError>
        ensures ok { OnOk result (Stored self.old self.new name.now bytes.items) }
        ensures err { OnErr result (self.new ≡ self.old) }
    {
        match place_of(&self.files, name) {
            Some(entry) => {
                self.files[entry].bytes = bytes;
                Ok(())
            }
            None => {
                let name = String::from_str(self.alloc, name)?;
                self.files.push(Entry { name, bytes })?;
                Ok(())
            }
        }
    }

    /// Puts a piece into a file. At an error nothing has changed.
    fn put_in_file(&mut self, name: &str, at: u64, piece: &[u8]) -> Result<(), AllocError>
        requires known { IsSome (get (files_of self.old.files) name.now) }
        requires within { at ≤ length (bytes_of (files_of self.old.files) name.now) }
        ensures ok { OnOk result (Stored self.old self.new name.now (put_into self.old name.now at piece.now)) }
        ensures err { OnErr result (self.new ≡ self.old) }
    {
        match place_of(&self.files, name) {
            Some(i) => {
                let file = &mut self.files[i];
                put(&mut file.bytes, at as usize, piece)?;
                Ok(())
            }
            None => Ok(()),
        }
    }

    /// Notes a write of `count` bytes and puts a piece into the file. At an error nothing has changed.
    fn write_noted(
        &mut self,
        name: &str,
        at: u64,
        piece: &[u8],
        count: u64,
    ) -> Result<(), AllocError>
        requires known { IsSome (get (files_of self.old.files) name.now) }
        requires within { at ≤ length (bytes_of (files_of self.old.files) name.now) }
        ensures ok { OnOk result (Stored (noted self.old name.now at count) self.new name.now (put_into self.old name.now at piece.now)) }
        ensures err { OnErr result (self.new ≡ self.old) }
    {
        self.note_write(name, at, count)?;
        match self.put_in_file(name, at, piece) {
            Ok(()) => Ok(()),
            Err(refused) => {
                self.forget_write();
                Err(refused)
            }
        }
    }

    /// Ends a write that is planned to fail: half of its piece is put in, unless its growth is refused.
    fn tear(&mut self, name: &str, at: u64, piece: &[u8])
        requires planned { 0 < length self.old.plan }
        requires known { IsSome (get (files_of self.old.files) name.now) }
        requires within { at ≤ length (bytes_of (files_of self.old.files) name.now) }
        ensures { Tears self.old self.new name.now at piece.now }
    {
        let half = &piece[..piece.len() / 2];
        match self.write_noted(name, at, half, piece.len() as u64) {
            Ok(()) => self.fault(),
            Err(_) => self.want(),
        }
    }
}

/// The place of the first file of this name.
fn place_of(files: &[Entry], name: &str) -> Option<usize>
    ensures { result ≡ position (λ e. bytes_eq (string_bytes e.name) name.now) files.now }
{
    files.iter().position(|file| file.name.as_str() == name)
}

/// Adds a move to the end of a list of them. At an error nothing has changed.
fn note(
    alloc: Global,
    moves: &mut Vec<Move>,
    name: &str,
    place: u64,
    count: u64,
) -> Result<(), AllocError>
    ensures ok { OnOk result (map moved moves.new.items ≡ map moved moves.old.items ++ (name.now, place, count) ∷ []) }
    ensures err { OnErr result (moves.new.items ≡ moves.old.items) }
{
    let name = String::from_str(alloc, name)?;
    moves.push(Move { name, place, count })?;
    Ok(())
}

/// Puts a piece at its place, which may make the bytes longer. At an error nothing has changed.
fn put(bytes: &mut Vec<u8>, at: usize, piece: &[u8]) -> Result<(), AllocError>
    requires { at ≤ length bytes.old.items }
    ensures ok { OnOk result (bytes.new.items ≡ put_at bytes.old.items at piece.now) }
    ensures err { OnErr result (bytes.new.items ≡ bytes.old.items) }
{
    let within = piece.len().min(bytes.len() - at);
    bytes.extend_from_slice(&piece[within..])?;
    bytes[at..at + within].copy_from_slice(&piece[..within]);
    Ok(())
}

impl Desk for MemoryDesk {
    ghost state = { desk_state };

    fn size(&mut self, name: &str) -> Result<u64, SizeStop>
        ensures call { SizeCall (desk_state self.old) (desk_state self.new) name.now result }
        ensures answer { result ≡ size_answer self.old name.now }
        ensures after { self.new ≡ size_after self.old name.now }
        ensures fails { FailsExactly (is_planned_next self.old) self.old.wants self.new.wants (result ≡ Err SizeStop.Failed) }
    {
        if self.is_planned() {
            self.fault();
            return Err(SizeStop::Failed);
        }
        match self.bytes_of(name) {
            Some(bytes) => Ok(bytes.len() as u64),
            None => {
                self.miss();
                Err(SizeStop::Absent)
            }
        }
    }

    fn read_at(&mut self, name: &str, at: u64, to: &mut [u8]) -> Result<usize, Failed>
        requires { IsTrue (is_known (desk_state self.old) name.now) }
        ensures call { ReadCall (desk_state self.old) (desk_state self.new) name.now at to.new result }
        ensures after { Reads self.old self.new name.now at to.old to.new result }
        ensures fails { FailsExactly (is_planned_next self.old) self.old.wants self.new.wants (IsErr result) }
    {
        if self.is_planned() {
            self.fault();
            return Err(Failed);
        }
        let count = self.read_count(name, at, to.len());
        match self.note_read(name, at, count as u64) {
            Ok(()) => {
                self.copy_at(name, at, &mut to[..count]);
                Ok(count)
            }
            Err(_) => {
                self.want();
                Err(Failed)
            }
        }
    }

    fn create(&mut self, name: &str) -> Result<(), Failed>
        ensures call { CreateCall (desk_state self.old) (desk_state self.new) name.now result }
        ensures after { Creates self.old self.new name.now result }
        ensures fails { FailsExactly (is_planned_next self.old) self.old.wants self.new.wants (IsErr result) }
    {
        if self.is_planned() {
            self.fault();
            return Err(Failed);
        }
        let empty = Vec::new(self.alloc);
        match self.put_file(name, empty) {
            Ok(()) => Ok(()),
            Err(_) => {
                self.want();
                Err(Failed)
            }
        }
    }

    fn write_at(&mut self, name: &str, at: u64, from: &[u8]) -> Result<usize, Failed>
        requires known { IsTrue (is_known (desk_state self.old) name.now) }
        requires within { at ≤ len_of (desk_state self.old) name.now }
        requires room { at + length from.now < 2 ^ 64 }
        ensures call { WriteCall (desk_state self.old) (desk_state self.new) name.now at from.now result }
        ensures after { Writes self.old self.new name.now at from.now result }
        ensures fails { FailsExactly (is_planned_next self.old) self.old.wants self.new.wants (IsErr result) }
    {
        if self.is_planned() {
            self.tear(name, at, from);
            return Err(Failed);
        }
        let count = self.write_count(from.len());
        match self.write_noted(name, at, &from[..count], count as u64) {
            Ok(()) => Ok(count),
            Err(_) => {
                self.want();
                Err(Failed)
            }
        }
    }
}
