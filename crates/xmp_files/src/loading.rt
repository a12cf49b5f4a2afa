//! Loading a file: its length, its kind, and its packet.
ghost use Rattle.std.specs.Prelude.{◌≡◌, length, Ok, IsTrue};
ghost use Rattle.xmp_base.specs.Device.{Told, bytes_of, is_known, len_of};
ghost use Rattle.xmp_files.specs.Loading.{known, with_offsets};
ghost use Rattle.xmp_files.specs.Loads.{KindCall, SizedCall, LoadCall};

use crate::faults::{
    FILE_LIMIT, PACKET_LIMIT, not_built, not_known, over_limit, over_packet, short_offsets,
};
use crate::held::{Held, Need};
use crate::images::load_image;
use crate::kinds::{HEAD_LEN, Kind, has_long_offsets, kind_of};
use crate::photographs::load_photograph;
use std::alloc::Global;
use xmp_base::{Desk, Failed, SizeStop, WindowStop, fill_from, window};
use xmp_values::{Fault, FileStop};

/// What is kept of a file. Changes no file, and reads of no other name.
///
/// Asks for the length, then reads the first 16 bytes, then what a photograph is made up of, and
/// then the packet. Of a file over its limit no byte is read, of one that is refused by its kind
/// none after these 16, and of a packet over its limit none after them either. No memory is taken
/// before the kind is known.
///
/// # Errors
/// `Absent` after a miss that the desk counted, `Device` after a failure that it counted, and the
/// first fault: the file is over its limit or of no kind, its container is broken, or its payload is
/// over its limit. A kind that isn't built yet is refused too.
pub fn load<D: Desk>(alloc: Global, desk: &mut D, name: &str, need: Need) -> Result<Held, FileStop>
    ensures call { LoadCall need (D.state desk.old) (D.state desk.new) name.now result }
{
    let size = match desk.size(name) {
        Ok(size) => size,
        Err(SizeStop::Absent) => return Err(FileStop::Absent),
        Err(SizeStop::Failed) => return Err(FileStop::Device),
    };
    if size > FILE_LIMIT {
        return Err(FileStop::Fault(over_limit(size)));
    }
    load_sized(alloc, desk, name, size, need)
}

/// What is kept of a known file of this length.
fn load_sized<D: Desk>(
    alloc: Global,
    desk: &mut D,
    name: &str,
    size: u64,
    need: Need,
) -> Result<Held, FileStop>
    requires known { IsTrue (is_known (D.state desk.old) name.now) }
    requires len { len_of (D.state desk.old) name.now ≡ size }
    requires told { Told (D.state desk.old).files (λ files. length (bytes_of files name.now) ≡ size) }
    ensures call { SizedCall need (D.state desk.old) (D.state desk.new) name.now size result }
{
    match kind_on(desk, name, size) {
        Ok(kind) => load_container(alloc, desk, name, size, need, kind),
        Err(stop) => Err(stop),
    }
}

/// What is kept of a known file of this length and this kind.
fn load_container<D: Desk>(
    alloc: Global,
    desk: &mut D,
    name: &str,
    size: u64,
    need: Need,
    kind: Kind,
) -> Result<Held, FileStop>
    requires known { IsTrue (is_known (D.state desk.old) name.now) }
    requires len { len_of (D.state desk.old) name.now ≡ size }
    requires told { Told (D.state desk.old).files (λ files. length (bytes_of files name.now) ≡ size) }
    requires kind { Told (D.state desk.old).files (λ files. known (bytes_of files name.now) ≡ Ok kind) }
    ensures call { SizedCall need (D.state desk.old) (D.state desk.new) name.now size result }
{
    match kind {
        Kind::Sidecar => load_sidecar(alloc, desk, name, size, need),
        Kind::Jpeg => load_photograph(alloc, desk, name, size, need),
        Kind::Tiff => load_image(alloc, desk, name, size, need),
        Kind::BigTiff => load_image(alloc, desk, name, size, need),
        _ => Err(FileStop::Fault(not_built())),
    }
}

/// The kind of a file, by its first bytes, if it has one that is read.
fn known(head: &[u8]) -> Result<Kind, Fault>
    ensures { result ≡ known head.now }
{
    match kind_of(head) {
        Some(Kind::BigTiff) => with_long_offsets(&head[..head.len().min(HEAD_LEN)]),
        Some(kind) => Ok(kind),
        None => Err(not_known()),
    }
}

/// The kind of a BigTIFF file that begins so. Its offsets must have 8 bytes, where it is long enough to say so.
fn with_long_offsets(head: &[u8]) -> Result<Kind, Fault>
    ensures { result ≡ with_offsets head.now Kind.BigTiff }
{
    if head.len() >= 8 && !has_long_offsets(head) {
        Err(short_offsets())
    } else {
        Ok(Kind::BigTiff)
    }
}

/// The kind of a known file of this length.
fn kind_on<D: Desk>(desk: &mut D, name: &str, size: u64) -> Result<Kind, FileStop>
    requires known { IsTrue (is_known (D.state desk.old) name.now) }
    requires len { len_of (D.state desk.old) name.now ≡ size }
    requires told { Told (D.state desk.old).files (λ files. length (bytes_of files name.now) ≡ size) }
    ensures call { KindCall (D.state desk.old) (D.state desk.new) name.now size result }
{
    let mut buffer = [0u8; HEAD_LEN];
    let head = &mut buffer[..size.min(HEAD_LEN as u64) as usize];
    match fill_from(desk, name, 0, head) {
        Ok(()) => match known(head) {
            Ok(kind) => Ok(kind),
            Err(fault) => Err(FileStop::Fault(fault)),
        },
        Err(Failed) => Err(FileStop::Device),
    }
}

/// What is kept of a known sidecar of this length, whose payload is the whole file.
fn load_sidecar<D: Desk>(
    alloc: Global,
    desk: &mut D,
    name: &str,
    size: u64,
    need: Need,
) -> Result<Held, FileStop>
    requires known { IsTrue (is_known (D.state desk.old) name.now) }
    requires len { len_of (D.state desk.old) name.now ≡ size }
    requires told { Told (D.state desk.old).files (λ files. length (bytes_of files name.now) ≡ size) }
    requires kind { Told (D.state desk.old).files (λ files. known (bytes_of files name.now) ≡ Ok Kind.Sidecar) }
    ensures call { SizedCall need (D.state desk.old) (D.state desk.new) name.now size result }
{
    if size > PACKET_LIMIT {
        return Err(FileStop::Fault(over_packet(size)));
    }
    match window(alloc, desk, name, 0, size as usize) {
        Ok(payload) => Ok(Held::sidecar(need, payload)),
        Err(WindowStop::Device) => Err(FileStop::Device),
        Err(WindowStop::Memory) => Err(FileStop::Memory),
    }
}
