// Parts of a file.
ghost use Rattle.std.specs.Prelude.{◌≡◌, ◌≢◌, ◌+◌, ◌<◌, ◌≤◌, ◌^◌, length, IsTrue};
ghost use Rattle.xmp_base.specs.Device.{is_known, len_of};
ghost use Rattle.xmp_base.specs.Windows.{FillFrom, FilledOnce, WindowCall, AppendCall, CopyCall};
ghost use Rattle.xmp_base.specs.Exchange.{PutCall};

use crate::{Desk, Failed};
use std::alloc::Global;
use xmp_values::Bytes;

/// Why a part of a file wasn't read.
#[derive(Clone, Copy, Debug, PartialEq, Eq)]
pub enum WindowStop {
    Device,
    Memory,
}

/// The `len` bytes of a file from `at` on, which it has. Each is read once.
///
/// # Errors
/// `Device` after a failure that the desk counted, and `Memory` before the desk is used.
pub fn window<D: Desk>(
    alloc: Global,
    desk: &mut D,
    name: &str,
    at: u64,
    len: usize,
) -> Result<Bytes, WindowStop>
    requires known { IsTrue (is_known (D.state desk.old) name.now) }
    requires within { at + len ≤ len_of (D.state desk.old) name.now }
    // `size` tells a length as a u64, so each range of a file has this.
    requires fits { at + len < 2 ^ 64 }
    ensures call { WindowCall (D.state desk.old) (D.state desk.new) name.now at len result }
{
    let Ok(mut items) = vec![in alloc; 0u8; len] else {
        return Err(WindowStop::Memory);
    };
    match fill_from(desk, name, at, items.as_mut_slice()) {
        Ok(()) => Ok(Bytes::from_vec(items)),
        Err(Failed) => Err(WindowStop::Device),
    }
}

/// Fills a slice with the bytes of a file from `at` on, which it has.
///
/// # Errors
/// `Failed` after a failure that the desk counted. The slice then holds anything.
pub fn fill_from<D: Desk>(desk: &mut D, name: &str, at: u64, to: &mut [u8]) -> Result<(), Failed>
    requires known { IsTrue (is_known (D.state desk.old) name.now) }
    requires within { at + length to.old ≤ len_of (D.state desk.old) name.now }
    requires fits { at + length to.old < 2 ^ 64 }
    ensures call { FillFrom (D.state desk.old) (D.state desk.new) name.now at to.new result }
    ensures once { FilledOnce result name.now at (length to.new) (D.state desk.old).reads (D.state desk.new).reads }
{
    let mut done = 0;
    while done < to.len() {
        done += desk.read_at(name, at + done as u64, &mut to[done..])?;
    }
    Ok(())
}

/// Puts `len` bytes of the file `from`, from `at` on, at the end of the file `to`, in pieces of at
/// most the buffer's length. `end` is the length of `to`. It takes no memory.
///
/// # Errors
/// `Failed` after a failure that the desk counted. `to` has then grown by a prefix of the bytes and
/// by what a failed write of one piece left.
pub fn copy_range<D: Desk>(
    desk: &mut D,
    from: &str,
    at: u64,
    len: u64,
    to: &str,
    end: u64,
    buffer: &mut [u8],
) -> Result<(), Failed>
    requires apart { from.now ≢ to.now }
    requires source { IsTrue (is_known (D.state desk.old) from.now) }
    requires target { IsTrue (is_known (D.state desk.old) to.now) }
    requires within { at + len ≤ len_of (D.state desk.old) from.now }
    requires fits { at + len < 2 ^ 64 }
    requires at_end { end ≡ len_of (D.state desk.old) to.now }
    requires room { end + len < 2 ^ 64 }
    requires some { 0 < length buffer.old }
    ensures call { CopyCall (D.state desk.old) (D.state desk.new) from.now at len to.now (length buffer.old) result }
{
    let mut done = 0;
    while done < len {
        let most = (len - done).min(buffer.len() as u64) as usize;
        let count = desk.read_at(from, at + done, &mut buffer[..most])?;
        append(desk, to, end + done, &buffer[..count])?;
        done += count as u64;
    }
    Ok(())
}

/// Puts a piece at the end of the file `to`, whose length is `end`.
///
/// # Errors
/// `Failed` after a failure that the desk counted. The file has then grown by a part of the piece.
pub fn append<D: Desk>(desk: &mut D, to: &str, end: u64, piece: &[u8]) -> Result<(), Failed>
    requires target { IsTrue (is_known (D.state desk.old) to.now) }
    requires at_end { end ≡ len_of (D.state desk.old) to.now }
    requires room { end + length piece.now < 2 ^ 64 }
    ensures call { AppendCall (D.state desk.old) (D.state desk.new) to.now piece.now result }
{
    let mut done = 0;
    while done < piece.len() {
        done += desk.write_at(to, end + done as u64, &piece[done..])?;
    }
    Ok(())
}

/// Exchanges the bytes of a file from `at` on for those of a piece, which end inside the file. It
/// takes no memory.
///
/// # Errors
/// `Failed` after a failure that the desk counted. The range then begins with a part of the piece,
/// and after that holds what one failed write left. All other bytes are the old ones.
pub fn put_inside<D: Desk>(desk: &mut D, name: &str, at: u64, piece: &[u8]) -> Result<(), Failed>
    requires known { IsTrue (is_known (D.state desk.old) name.now) }
    requires within { at + length piece.now ≤ len_of (D.state desk.old) name.now }
    requires fits { at + length piece.now < 2 ^ 64 }
    ensures call { PutCall (D.state desk.old) (D.state desk.new) name.now at piece.now result }
{
    let mut done = 0;
    while done < piece.len() {
        done += desk.write_at(name, at + done as u64, &piece[done..])?;
    }
    Ok(())
}
