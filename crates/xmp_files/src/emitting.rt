//! Writing the new file.
ghost use Rattle.std.specs.Prelude.{◌≡◌, ◌≢◌, ◌+◌, ◌-◌, ◌<◌, ◌≤◌, ◌^◌, All, length, IsTrue, Ok, Some};
ghost use Rattle.std.specs.FinMap.{get};
ghost use Rattle.xmp_base.specs.Device.{Told, is_known, len_of};
ghost use Rattle.xmp_files.specs.Loading.{IsLoaded};
ghost use Rattle.xmp_files.specs.Loads.{IsOfSize};
ghost use Rattle.xmp_files.specs.NewFiles.{part_at, parts_at, PartLies};
ghost use Rattle.xmp_files.specs.Planning.{Old, part_len, parts_len};
ghost use Rattle.xmp_files.specs.Planneds.{IsNear};
ghost use Rattle.xmp_files.specs.Emitting.{EmitCall, IsPlanFor, near_parts, PartCall, PartsCall, PiecesCall, most_piece};

use crate::held::Held;
use crate::parts::{FilePart, spliced};
use crate::plans::Planned;
use xmp_base::{Desk, Failed, FileSpan, append, copy_range};

/// The most bytes of a piece that is written.
const PIECE: usize = 65_536;

/// Writes the file of a plan to the name `to`, whatever was there. `from` is the file that was loaded and
/// planned for: what stays of it is copied. It takes no memory.
///
/// # Errors
/// `Failed` after a failure that the desk counted. Nothing was written then, or the file holds a prefix of the
/// whole and at most 65,536 bytes that a failed write left.
pub fn emit<D: Desk>(
    desk: &mut D,
    held: &Held,
    plan: &Planned,
    from: &str,
    to: &str,
) -> Result<(), Failed>
    requires apart { from.now ≢ to.now }
    requires loaded { Told (D.state desk.old).files (λ files. IsLoaded held.now.need (get files from.now) (Ok held.now)) }
    requires known { get (D.state desk.old).lens from.now ≡ Some held.now.size }
    requires lies { IsOfSize held.now.size held.now }
    requires planned { IsPlanFor held.now plan.now.plan }
    requires sized { plan.now.size ≡ held.now.size }
    ensures call { EmitCall (D.state desk.old) (D.state desk.new) plan.now.plan held.now.size from.now to.now result }
{
    let mut buffer = [0; PIECE];
    desk.create(to)?;
    match plan.new_file() {
        Some(new) => {
            // The length of the new file is a number of 64 bits.
            let _ = plan.new_len();
            let bytes = new.bytes.as_slice();
            put_parts(desk, from, to, new.parts.as_slice(), bytes, &mut buffer)
        }
        None => put_near(desk, held, plan, from, to, &mut buffer),
    }
}

/// Puts the file of a plan that writes none anew into an empty one: the old one with its payload exchanged.
fn put_near<D: Desk>(
    desk: &mut D,
    held: &Held,
    plan: &Planned,
    from: &str,
    to: &str,
    buffer: &mut [u8],
) -> Result<(), Failed>
    requires apart { from.now ≢ to.now }
    requires source { get (D.state desk.old).lens from.now ≡ Some held.now.size }
    requires target { IsTrue (is_known (D.state desk.old) to.now) }
    requires at_end { len_of (D.state desk.old) to.now ≡ 0 }
    requires lies { IsOfSize held.now.size held.now }
    requires planned { IsPlanFor held.now plan.now.plan }
    requires near { IsNear plan.now.plan }
    requires some { 0 < length buffer.old }
    requires small { length buffer.old ≤ most_piece }
    ensures call { PartsCall (D.state desk.old) (D.state desk.new) from.now to.now (near_parts held.now.payload plan.now.plan held.now.size) result }
{
    let size = held.size();
    let at = held.payload_place();
    let rest = at + held.payload_len() as u64;
    let bytes = plan.bytes(held);
    let parts = spliced(at, bytes.len() as u64, rest, size);
    put_parts(desk, from, to, &parts, bytes, buffer)
}

/// Puts the parts of a new file into an empty one.
fn put_parts<D: Desk>(
    desk: &mut D,
    from: &str,
    to: &str,
    parts: &[FilePart],
    bytes: &[u8],
    buffer: &mut [u8],
) -> Result<(), Failed>
    requires apart { from.now ≢ to.now }
    requires source { IsTrue (is_known (D.state desk.old) from.now) }
    requires target { IsTrue (is_known (D.state desk.old) to.now) }
    requires at_end { len_of (D.state desk.old) to.now ≡ 0 }
    requires inside { All (PartLies (len_of (D.state desk.old) from.now) (length bytes.now)) parts.now }
    requires room { parts_len (parts_at bytes.now parts.now) < 2 ^ 64 }
    requires some { 0 < length buffer.old }
    requires small { length buffer.old ≤ most_piece }
    ensures call { PartsCall (D.state desk.old) (D.state desk.new) from.now to.now (parts_at bytes.now parts.now) result }
{
    let mut end = 0;
    for part in parts {
        put_part(desk, from, to, end, *part, bytes, buffer)?;
        end += part.len();
    }
    Ok(())
}

/// Puts a part of a new file at its end.
fn put_part<D: Desk>(
    desk: &mut D,
    from: &str,
    to: &str,
    end: u64,
    part: FilePart,
    bytes: &[u8],
    buffer: &mut [u8],
) -> Result<(), Failed>
    requires apart { from.now ≢ to.now }
    requires source { IsTrue (is_known (D.state desk.old) from.now) }
    requires target { IsTrue (is_known (D.state desk.old) to.now) }
    requires at_end { len_of (D.state desk.old) to.now ≡ end }
    requires inside { PartLies (len_of (D.state desk.old) from.now) (length bytes.now) part }
    requires room { end + part_len (part_at bytes.now part) < 2 ^ 64 }
    requires some { 0 < length buffer.old }
    requires small { length buffer.old ≤ most_piece }
    ensures call { PartCall (D.state desk.old) (D.state desk.new) from.now to.now (part_at bytes.now part) result }
{
    match part {
        FilePart::Old(range) => put_range(desk, from, to, end, range, buffer),
        FilePart::New(range) => {
            let piece = &bytes[range.start as usize..range.end as usize];
            put_pieces(desk, to, end, piece)
        }
    }
}

/// Where the first piece of a range ends that is put at the place `end` of a file: the pieces after it begin at
/// multiples of their length, so that whole pages are written.
fn first_end(range: FileSpan, end: u64) -> u64
    requires { range.start ≤ range.end }
    ensures from { range.start ≤ result }
    ensures to { result ≤ range.end }
{
    let len = range.end - range.start;
    range.start + len.min(PIECE as u64 - end % PIECE as u64)
}

/// Puts a range of the old file at the end of the new one.
fn put_range<D: Desk>(
    desk: &mut D,
    from: &str,
    to: &str,
    end: u64,
    range: FileSpan,
    buffer: &mut [u8],
) -> Result<(), Failed>
    requires apart { from.now ≢ to.now }
    requires source { IsTrue (is_known (D.state desk.old) from.now) }
    requires target { IsTrue (is_known (D.state desk.old) to.now) }
    requires at_end { len_of (D.state desk.old) to.now ≡ end }
    requires order { range.start ≤ range.end }
    requires inside { range.end ≤ len_of (D.state desk.old) from.now }
    requires fits { range.end < 2 ^ 64 }
    requires room { end + (range.end - range.start) < 2 ^ 64 }
    requires some { 0 < length buffer.old }
    requires small { length buffer.old ≤ most_piece }
    ensures call { PartCall (D.state desk.old) (D.state desk.new) from.now to.now (Old range) result }
{
    let mid = first_end(range, end);
    let first = mid - range.start;
    copy_range(desk, from, range.start, first, to, end, buffer)?;
    copy_range(desk, from, mid, range.end - mid, to, end + first, buffer)
}

/// Puts bytes at the end of a file, piece by piece.
fn put_pieces<D: Desk>(desk: &mut D, to: &str, end: u64, bytes: &[u8]) -> Result<(), Failed>
    requires target { IsTrue (is_known (D.state desk.old) to.now) }
    requires at_end { end ≡ len_of (D.state desk.old) to.now }
    requires room { end + length bytes.now < 2 ^ 64 }
    ensures call { PiecesCall (D.state desk.old) (D.state desk.new) to.now bytes.now result }
{
    let mut done = 0;
    while done < bytes.len() {
        let count = (bytes.len() - done).min(PIECE);
        append(desk, to, end + done as u64, &bytes[done..done + count])?;
        done += count;
    }
    Ok(())
}
