//! The text that portions in a file of a device join to.
//!
//! The first 75 bytes of each payload are read, and the others only of the portions of one text that
//! tile it. So a file costs no more memory than the text that it could mean.
ghost use Rattle.std.specs.Prelude.{◌≡◌, [], ◌∷◌, ◌++◌, is_some, if◌then◌else◌, ◌+◌, ◌<◌, ◌≤◌, ◌^◌, IfOk, OnOk, MatchResult, IsTrue, length, map};
ghost use Rattle.std.specs.Option.{option_to_list};
ghost use Rattle.xmp_base.specs.Device.{Told, Rose, bytes_of, is_known, len_of};
ghost use Rattle.xmp_base.specs.Windows.{ReadInside};
ghost use Rattle.jpeg_extended.specs.Heads.{portion_in};
ghost use Rattle.jpeg_extended.specs.FromDesk.{AreInside, AreOf, PayloadCalls, StopsOnly, HeadIs, HeadLies, JoinFromCall, NamedCall, TextCall, head_range, portions_at};

use crate::tiling::{ExtStop, Head, tile};
use std::alloc::Global;
use xmp_base::{Desk, Failed, FileSpan, WindowStop, fill_from, window};
use xmp_values::{Bytes, Digits, Memory};

/// The length of what tells the place of a portion in its text.
const HEAD: usize = 75;

/// Why portions of a file of a device give no text.
#[derive(Clone, Copy, Debug, PartialEq, Eq, Drop)]
pub enum JoinStop {
    /// The portions give none, or memory ran out.
    Portions(ExtStop),
    /// A call of the device failed, and was counted.
    Device,
}

/// The text of a name that the portions among these payloads of a file of `len` bytes join to; None where there are
/// none. Of each payload the first 75 bytes are read, and the others of the text's portions once they are known to tile it.
///
/// # Errors
/// `Portions` with the first of `ExtStop` that holds, and `Device` after a failure that the desk counted.
pub fn joined_from<D: Desk>(
    alloc: Global,
    desk: &mut D,
    file: &str,
    len: u64,
    payloads: &[FileSpan],
    name: &Digits,
) -> Result<Option<Bytes>, JoinStop>
    requires known { IsTrue (is_known (D.state desk.old) file.now) }
    requires size { len_of (D.state desk.old) file.now ≡ len }
    requires told { Told (D.state desk.old).files (λ files. length (bytes_of files file.now) ≡ len) }
    requires inside { AreInside len payloads.now }
    ensures call { JoinFromCall (D.state desk.old) (D.state desk.new) file.now payloads.now name.now result }
{
    let mut heads = match heads_from(alloc, desk, file, len, payloads, name) {
        Ok(heads) => heads,
        Err(stop) => return Err(stop),
    };
    match tile(&mut heads) {
        Ok(None) => Ok(None),
        Ok(Some(_)) => match text_from(alloc, desk, file, len, payloads, heads.as_slice()) {
            Ok(text) => Ok(Some(text)),
            Err(stop) => Err(stop),
        },
        Err(stop) => Err(JoinStop::Portions(stop)),
    }
}

/// Those of the payloads of a file of `len` bytes that are portions of the text of a name, in their order. Of each
/// payload the first 75 bytes are read at most.
///
/// # Errors
/// `Portions` with `Memory`, and `Device` after a failure that the desk counted.
pub fn named_from<D: Desk>(
    alloc: Global,
    desk: &mut D,
    file: &str,
    len: u64,
    payloads: &[FileSpan],
    name: &Digits,
) -> Result<Vec<FileSpan>, JoinStop>
    requires known { IsTrue (is_known (D.state desk.old) file.now) }
    requires size { len_of (D.state desk.old) file.now ≡ len }
    requires told { Told (D.state desk.old).files (λ files. length (bytes_of files file.now) ≡ len) }
    requires inside { AreInside len payloads.now }
    ensures call { NamedCall (D.state desk.old) (D.state desk.new) file.now len payloads.now name.now result }
{
    let mut named = Vec::new(alloc);
    for payload in payloads {
        let head = match head_from(desk, file, *payload, name) {
            Ok(head) => head,
            Err(Failed) => return Err(JoinStop::Device),
        };
        match put_named(&mut named, *payload, head) {
            Ok(()) => (),
            Err(Memory) => return Err(JoinStop::Portions(ExtStop::Memory)),
        }
    }
    Ok(named)
}

/// A payload, where it has a head.
fn put_named(named: &mut Vec<FileSpan>, payload: FileSpan, head: Option<Head>) -> Result<(), Memory>
    ensures { OnOk result (named.new.items ≡ named.old.items ++ (if is_some head then payload ∷ [] else [])) }
{
    if let Some(_) = head {
        named.push(payload)?;
    }
    Ok(())
}

/// The heads of the portions of a name, in the order of their payloads.
fn heads_from<D: Desk>(
    alloc: Global,
    desk: &mut D,
    file: &str,
    len: u64,
    payloads: &[FileSpan],
    name: &Digits,
) -> Result<Vec<Head>, JoinStop>
    requires known { IsTrue (is_known (D.state desk.old) file.now) }
    requires size { len_of (D.state desk.old) file.now ≡ len }
    requires told { Told (D.state desk.old).files (λ files. length (bytes_of files file.now) ≡ len) }
    requires inside { AreInside len payloads.now }
    ensures calls { PayloadCalls (D.state desk.old) (D.state desk.new) file.now payloads.now }
    ensures placed { IfOk result (λ heads. AreOf payloads.now heads.items) }
    // where the file is told they are those of the portions of the name
    ensures told { IfOk result (λ heads. Told (D.state desk.old).files (λ files. map (portion_in (bytes_of files file.now)) heads.items ≡ portions_at (bytes_of files file.now) name.now payloads.now)) }
    ensures stops { StopsOnly (D.state desk.old) (D.state desk.new) result }
{
    let mut heads = Vec::new(alloc);
    for payload in payloads {
        let head = match head_from(desk, file, *payload, name) {
            Ok(head) => head,
            Err(Failed) => return Err(JoinStop::Device),
        };
        match put_head(&mut heads, head) {
            Ok(()) => (),
            Err(Memory) => return Err(JoinStop::Portions(ExtStop::Memory)),
        }
    }
    Ok(heads)
}

fn put_head(heads: &mut Vec<Head>, head: Option<Head>) -> Result<(), Memory>
    ensures { OnOk result (heads.new.items ≡ heads.old.items ++ option_to_list head) }
{
    if let Some(head) = head {
        heads.push(head)?;
    }
    Ok(())
}

/// What the beginning of a payload says, if it is a portion of the text of this name.
fn head_from<D: Desk>(
    desk: &mut D,
    file: &str,
    payload: FileSpan,
    name: &Digits,
) -> Result<Option<Head>, Failed>
    requires known { IsTrue (is_known (D.state desk.old) file.now) }
    requires order { payload.start ≤ payload.end }
    requires inside { payload.end ≤ len_of (D.state desk.old) file.now }
    ensures calls { ReadInside (D.state desk.old) (D.state desk.new) file.now payload.start (head_range payload).end }
    ensures lies { IfOk result (HeadLies payload) }
    ensures head { IfOk result (λ head. Told (D.state desk.old).files (λ files. HeadIs name.now (bytes_of files file.now) payload head)) }
    ensures failed { MatchResult result (λ _. Unit {0}) (λ _. Rose (D.state desk.old).faults (D.state desk.new).faults) }
{
    if payload.end - payload.start < HEAD as u64 {
        return Ok(None);
    }
    let mut front = [0u8; HEAD];
    match fill_from(desk, file, payload.start, &mut front) {
        Ok(()) => Ok(Head::read(&front, payload, name)),
        Err(Failed) => Err(Failed),
    }
}

/// The bytes of portions, one after another.
fn text_from<D: Desk>(
    alloc: Global,
    desk: &mut D,
    file: &str,
    len: u64,
    payloads: &[FileSpan],
    heads: &[Head],
) -> Result<Bytes, JoinStop>
    requires known { IsTrue (is_known (D.state desk.old) file.now) }
    requires size { len_of (D.state desk.old) file.now ≡ len }
    requires inside { AreInside len payloads.now }
    requires of { AreOf payloads.now heads.now }
    ensures call { TextCall (D.state desk.old) (D.state desk.new) file.now payloads.now heads.now result }
{
    let _ = payloads;
    let mut text = Vec::new(alloc);
    for head in heads {
        let part = match window(alloc, desk, file, head.at, head.len as usize) {
            Ok(part) => part,
            Err(WindowStop::Device) => return Err(JoinStop::Device),
            Err(WindowStop::Memory) => return Err(JoinStop::Portions(ExtStop::Memory)),
        };
        let Ok(()) = text.extend_from_slice(part.as_slice()) else {
            return Err(JoinStop::Portions(ExtStop::Memory));
        };
    }
    Ok(Bytes::from_vec(text))
}
