// Real files by the names of a command line.
ghost use Rattle.std.specs.Prelude.{◌≡◌, ◌<◌, ◌≤◌, ◌+◌, ◌-◌, ◌^◌, min, List, ℕ, [], ◌∷◌, ◌++◌, map, length, None, IfOk, OnOk};
ghost use Rattle.xmp_base.specs.FileDesk.{IsFresh, file_state, known_lens, name_and_len};
ghost use Rattle.std.specs.String.{string_bytes};
ghost use Rattle.std.specs.List.{position};
ghost use Rattle.std.specs.Str.{bytes_eq};

use crate::{Desk, Failed, SizeStop};
use std::alloc::Global;
use std::fs::{File, OpenOptions};
use std::io::{ErrorKind, Read, Seek, SeekFrom, Write};
use std::rt::Files;
use std::{fs, io};
use xmp_values::{Memory, Words};

/// A file that is open, and the place in it where the next read or write goes.
#[derive(Drop)]
struct Handle<F: Drop> {
    file: F,
    place: u64,
    is_writable: bool,
}

/// A name, the length that was told of it, and its handle once it was opened.
#[derive(Drop)]
struct Known<F: Drop> {
    name: String,
    len: Option<u64>,
    handle: Option<Handle<F>>,
}

/// Real files, under the names that a list of words gives. It tells lengths and counts, and no bytes.
///
/// A file is opened at its first read, write or creation, and stays open until a call on it fails.
/// Counted as failures are each error of the toolchain's calls, want of memory included, but for a
/// file that `size` doesn't find; a name that is none of the words; a file that ends before its
/// known length; and a write that takes nothing of a piece that isn't empty.
#[derive(Drop)]
pub struct FileDesk<'r, R: Files> {
    rt: &'r R,
    names: Vec<Known<R::File>>,
    faults: u64,
    misses: u64,
}

impl<'r, R: Files> FileDesk<'r, R> {
    /// A desk for the files that these words name. No file is looked at yet.
    ///
    /// # Errors
    /// `Memory`.
    pub fn new(rt: &'r R, alloc: Global, words: &Words) -> Result<FileDesk<'r, R>, Memory>
        ensures { IfOk result (λ desk. IsFresh desk.names.items desk.faults desk.misses words.now) }
    {
        let mut names = Vec::new(alloc);
        for i in 0..words.len() {
            if let Some(word) = words.get(i) {
                push_name(&mut names, alloc, word)?;
            }
        }
        Ok(FileDesk {
            rt,
            names,
            faults: 0,
            misses: 0,
        })
    }
}

fn push_name<F: Drop>(names: &mut Vec<Known<F>>, alloc: Global, word: &str) -> Result<(), Memory>
    ensures { OnOk result (map name_and_len names.new.items ≡ map name_and_len names.old.items ++ (word.now, None) ∷ []) }
{
    let name = String::from_str(alloc, word)?;
    names.push(Known {
        name,
        len: None,
        handle: None,
    })?;
    Ok(())
}

impl<F: Read + Write + Seek + Drop> Handle<F> {
    fn seek(&mut self, at: u64) -> io::Result<()> {
        if self.place != at {
            self.file.seek(SeekFrom::Start(at))?;
            self.place = at;
        }
        Ok(())
    }

    /// Reads once. The end of the file is a failure.
    fn read_at(&mut self, at: u64, to: &mut [u8]) -> io::Result<usize>
        ensures { IfOk result (λ n. (0 < n) × (n ≤ length to.new)) }
    {
        self.seek(at)?;
        let count = self.file.read(to)?;
        if count == 0 {
            return Err(io::Error::from(ErrorKind::UnexpectedEof));
        }
        self.place = at.saturating_add(count as u64);
        Ok(count)
    }

    /// Writes once. A write that takes nothing is a failure.
    fn write_at(&mut self, at: u64, from: &[u8]) -> io::Result<usize>
        ensures { IfOk result (λ n. (0 < n) × (n ≤ length from.now)) }
    {
        self.seek(at)?;
        let count = self.file.write(from)?;
        if count == 0 {
            return Err(io::Error::from(ErrorKind::WriteZero));
        }
        self.file.flush()?;
        self.place = at.saturating_add(count as u64);
        Ok(count)
    }
}

impl<F: Read + Write + Seek + Drop> Known<F> {
    /// Reads once. The handle is kept where that succeeds, and closed where it fails.
    fn read_at<R: Files<File = F>>(&mut self, rt: &R, at: u64, to: &mut [u8]) -> io::Result<usize>
        ensures count { IfOk result (λ n. (0 < n) × (n ≤ length to.new)) }
        ensures same { name_and_len self.new ≡ name_and_len self.old }
    {
        let mut handle = match self.handle.take() {
            Some(handle) => handle,
            None => Handle {
                file: File::open(rt, self.name.as_str())?,
                place: 0,
                is_writable: false,
            },
        };
        let count = handle.read_at(at, to)?;
        self.handle = Some(handle);
        Ok(count)
    }

    /// Writes once, through a handle that may write, and else through a new one. The handle is kept
    /// where that succeeds, and closed where it fails.
    fn write_at<R: Files<File = F>>(&mut self, rt: &R, at: u64, from: &[u8]) -> io::Result<usize>
        ensures count { IfOk result (λ n. (0 < n) × (n ≤ length from.now)) }
        ensures same { name_and_len self.new ≡ name_and_len self.old }
    {
        let mut handle = match self.handle.take() {
            Some(handle) if handle.is_writable => handle,
            _ => Handle {
                file: OpenOptions::new()
                    .read(true)
                    .write(true)
                    .open(rt, self.name.as_str())?,
                place: 0,
                is_writable: true,
            },
        };
        let count = handle.write_at(at, from)?;
        self.handle = Some(handle);
        Ok(count)
    }

    /// Makes the file empty.
    fn create<R: Files<File = F>>(&mut self, rt: &R) -> io::Result<()>
        ensures same { name_and_len self.new ≡ name_and_len self.old }
    {
        self.handle = None;
        let mut options = OpenOptions::new();
        options.read(true).write(true).create(true).truncate(true);
        self.handle = Some(Handle {
            file: options.open(rt, self.name.as_str())?,
            place: 0,
            is_writable: true,
        });
        Ok(())
    }
}

impl<'r, R: Files> FileDesk<'r, R> {
    /// Where this name stands among the words.
    fn place_of(&self, name: &str) -> Option<usize>
        ensures { result ≡ position (λ known. bytes_eq (string_bytes known.name) name.now) self.now.names.items }
    {
        self.names
            .iter()
            .position(|known| known.name.as_str() == name)
    }

    /// Counts a failure.
    fn fault(&mut self) -> Failed
        ensures fits { self.old.faults < 2 ^ 64 }
        ensures counted { self.new ≡ record self.old { faults = min (self.old.faults + 1) (2 ^ 64 - 1) } }
    {
        self.faults = self.faults.saturating_add(1);
        Failed
    }
}

impl<'r, R: Files> Desk for FileDesk<'r, R> {
    ghost state = { λ d. file_state (known_lens d.names.items) d.faults d.misses };

    fn size(&mut self, name: &str) -> Result<u64, SizeStop> {
        let Some(i) = self.place_of(name) else {
            self.fault();
            return Err(SizeStop::Failed);
        };
        match fs::metadata(self.rt, name) {
            Ok(found) => {
                let len = found.len();
                self.names[i].len = Some(len);
                Ok(len)
            }
            Err(error) if error.kind() == ErrorKind::NotFound => {
                self.misses = self.misses.saturating_add(1);
                Err(SizeStop::Absent)
            }
            Err(_) => {
                self.fault();
                Err(SizeStop::Failed)
            }
        }
    }

    fn read_at(&mut self, name: &str, at: u64, to: &mut [u8]) -> Result<usize, Failed> {
        let Some(i) = self.place_of(name) else {
            return Err(self.fault());
        };
        let known = &mut self.names[i];
        let len = known.len.unwrap_or(0);
        let room = len.saturating_sub(at).min(to.len() as u64) as usize;
        if room == 0 {
            return Ok(0);
        }
        match known.read_at(self.rt, at, &mut to[..room]) {
            Ok(count) => Ok(count),
            Err(_) => Err(self.fault()),
        }
    }

    fn create(&mut self, name: &str) -> Result<(), Failed> {
        let Some(i) = self.place_of(name) else {
            return Err(self.fault());
        };
        let known = &mut self.names[i];
        if known.create(self.rt).is_err() {
            return Err(self.fault());
        }
        known.len = Some(0);
        Ok(())
    }

    fn write_at(&mut self, name: &str, at: u64, from: &[u8]) -> Result<usize, Failed> {
        if from.is_empty() {
            return Ok(0);
        }
        let Some(i) = self.place_of(name) else {
            return Err(self.fault());
        };
        let known = &mut self.names[i];
        let len = known.len.unwrap_or(0);
        match known.write_at(self.rt, at, from) {
            Ok(count) => {
                known.len = Some(len.max(at + count as u64));
                Ok(count)
            }
            Err(_) => Err(self.fault()),
        }
    }
}
