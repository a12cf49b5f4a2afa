//! Where a relocation changes a file, and the bytes that it puts there.
ghost use Rattle.std.specs.Prelude.{◌≡◌, ◌≤◌, ◌<◌, ◌^◌, ◌++◌, length, IfSome, OnOk, false, true};
ghost use Rattle.tiff_dirs.specs.Tiff.{first_entry};
ghost use Rattle.tiff_relocation.specs.Relocation.{cut_place, entries_before, even, first_dir, pad, tells};
ghost use Rattle.tiff_relocation.specs.Moves.{Lies, MayTell, copy_entry, copy_head, has_no_room, numbers, relocation_of};

use crate::numbers::push_number;
use tiff_dirs::{Dirs, Entry, Layout};
use xmp_base::FileSpan;
use xmp_values::Memory;

/// The tag of the packet's entry, and its type, BYTE.
const PACKET_TAG: u16 = 700;

const BYTE: u64 = 1;

/// The longest file whose places are counted.
const MOST: u64 = 1 << 60;

/// What a relocation exchanges in a file, and what it copies to its end.
#[derive(Clone, Copy, Debug, PartialEq, Eq)]
pub struct Relocation {
    /// The byte order and the widths of the file's parts.
    pub layout: Layout,
    /// The file's length.
    pub size: u64,
    /// The numbers that are exchanged.
    pub changed: FileSpan,
    /// Whether the first directory is copied, since it has no entry of the packet.
    pub copied: bool,
    /// How many entries the first directory has.
    pub entries: u64,
    /// The entries that are copied before the new one.
    pub before: FileSpan,
    /// Those that are copied after it, with the next offset.
    pub after: FileSpan,
    /// Where the packet stands in the new file.
    pub place: u64,
}

/// The next even place: what is put at the end of a file begins on a word (TIFF 6.0, section 2).
fn even(size: u64) -> u64
    requires { size ≤ 2 ^ 60 }
    ensures { result ≡ even size }
{
    size + size % 2
}

/// How many entries of the first directory stand before the new one.
fn entries_before(dirs: &Dirs) -> usize
    requires { 0 < length dirs.now.dirs }
    ensures { result ≡ entries_before (first_dir dirs.now.dirs).entries }
{
    let count = dirs.entries(0);
    for i in 0..count {
        if dirs.entry(0, i).tag > PACKET_TAG {
            return i;
        }
    }
    count
}

/// Where the new entry cuts the first directory.
fn cut_place(dirs: &Dirs) -> Option<u64>
    requires { 0 < length dirs.now.dirs }
    ensures { IfSome result (λ place. place ≡ cut_place dirs.now.layout (first_dir dirs.now.dirs)) }
{
    let layout = dirs.layout();
    let Some(first) = dirs.at(0).checked_add(layout.count) else {
        return None;
    };
    let Some(len) = layout.entry.checked_mul(entries_before(dirs) as u64) else {
        return None;
    };
    first.checked_add(len)
}

/// The count and the offset of the packet's entry are exchanged.
fn readdressed(dirs: &Dirs, size: u64, entry: Entry) -> Option<Relocation>
    requires some { 0 < length dirs.now.dirs }
    requires short { size ≤ 2 ^ 60 }
    requires entry { first_entry 700 dirs.now.dirs ≡ Some entry }
    ensures is { IfSome result (λ r. r ≡ relocation_of size dirs.now) }
    ensures lies { IfSome result Lies }
{
    let layout = dirs.layout();
    let Some(start) = entry.place.checked_add(4) else {
        return None;
    };
    let Some(end) = start.checked_add(2 * layout.word) else {
        return None;
    };
    if end > size {
        return None;
    }
    let nothing = FileSpan { start: 0, end: 0 };
    Some(Relocation {
        layout,
        size,
        changed: FileSpan { start, end },
        copied: false,
        entries: dirs.entries(0) as u64,
        before: nothing,
        after: nothing,
        place: even(size),
    })
}

/// The offset of the header is exchanged, for that of a copy of the first directory.
fn copied(dirs: &Dirs, size: u64) -> Option<Relocation>
    requires some { 0 < length dirs.now.dirs }
    requires short { size ≤ 2 ^ 60 }
    requires none { first_entry 700 dirs.now.dirs ≡ None }
    ensures is { IfSome result (λ r. r ≡ relocation_of size dirs.now) }
    ensures lies { IfSome result Lies }
{
    let layout = dirs.layout();
    let at = dirs.at(0);
    let end = dirs.end(0);
    let Some(cut) = cut_place(dirs) else {
        return None;
    };
    if layout.header > size || cut > end || end > size {
        return None;
    }
    Some(Relocation {
        layout,
        size,
        changed: FileSpan {
            start: layout.word,
            end: 2 * layout.word,
        },
        copied: true,
        entries: dirs.entries(0) as u64,
        before: FileSpan {
            start: at + layout.count,
            end: cut,
        },
        after: FileSpan { start: cut, end },
        place: even(size) + (end - at) + layout.entry,
    })
}

impl Relocation {
    /// What a relocation exchanges in a file of `size` bytes; none where the first directory doesn't lie in
    /// it, which no walk gives.
    pub fn of(dirs: &Dirs, size: u64) -> Option<Relocation>
        ensures is { IfSome result (λ r. r ≡ relocation_of size dirs.now) }
        ensures lies { IfSome result Lies }
    {
        if dirs.directories() == 0 || size > MOST {
            return None;
        }
        match dirs.first_tag(PACKET_TAG) {
            Some(entry) => readdressed(dirs, size, entry),
            None => copied(dirs, size),
        }
    }

    /// Whether the first directory would need an entry more than a directory may have.
    pub fn lacks_room(&self) -> bool
        ensures { result ≡ has_no_room self.now }
    {
        self.copied && self.entries >= 65_535
    }

    /// Whether the numbers of the layout tell a file of so many bytes.
    pub fn tells(&self, len: u64) -> bool
        requires lies { Lies self.now }
        ensures is { result ≡ tells self.now.layout len }
        ensures holds { result ≡ true → len < 256 ^ self.now.layout.word }
    {
        self.layout.word == 8 || len <= u64::from(u32::MAX)
    }

    /// Adds the numbers that are exchanged, for a packet of `len` bytes.
    pub fn push_numbers(&self, bytes: &mut Vec<u8>, len: u64) -> Result<(), Memory>
        requires lies { Lies self.now }
        requires told { MayTell self.now len }
        ensures { OnOk result (bytes.new.items ≡ bytes.old.items ++ numbers self.now len) }
    {
        let Layout { big, word, .. } = self.layout;
        if !self.copied {
            push_number(bytes, big, word, len)?;
        }
        push_number(bytes, big, word, even(self.size))
    }

    /// Adds the zero byte after an odd length, and the count of the copy.
    pub fn push_head(&self, bytes: &mut Vec<u8>) -> Result<(), Memory>
        requires lies { Lies self.now }
        requires room { has_no_room self.now ≡ false }
        ensures { OnOk result (bytes.new.items ≡ bytes.old.items ++ (pad self.now.size ++ copy_head self.now)) }
    {
        if self.size % 2 == 1 {
            bytes.push(0)?;
        }
        if self.copied {
            let Layout { big, count, .. } = self.layout;
            push_number(bytes, big, count, self.entries + 1)?;
        }
        Ok(())
    }

    /// Adds the new entry of the copy, for a packet of `len` bytes: tag, type, count, offset.
    pub fn push_entry(&self, bytes: &mut Vec<u8>, len: u64) -> Result<(), Memory>
        requires lies { Lies self.now }
        requires told { MayTell self.now len }
        ensures { OnOk result (bytes.new.items ≡ bytes.old.items ++ copy_entry self.now len) }
    {
        if !self.copied {
            return Ok(());
        }
        let Layout { big, word, .. } = self.layout;
        push_number(bytes, big, 2, PACKET_TAG as u64)?;
        push_number(bytes, big, 2, BYTE)?;
        push_number(bytes, big, word, len)?;
        push_number(bytes, big, word, self.place)
    }
}
