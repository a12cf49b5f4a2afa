//! Loading a TIFF or BigTIFF file: its directories, and its main packet.
ghost use Rattle.std.specs.Prelude.{◌≡◌, nat_le, ◌&&◌, length, Ok, IsTrue};
ghost use Rattle.xmp_base.specs.Device.{Told, bytes_of, is_known, len_of};
ghost use Rattle.xmp_files.specs.declared.kinds.Kind.{Kind};
ghost use Rattle.xmp_files.specs.Images.{HasDirectories, image_fault, is_walk_rule};
ghost use Rattle.xmp_files.specs.Loading.{known};
ghost use Rattle.xmp_files.specs.Loads.{SizedCall, walk_stop};

use crate::faults::{PACKET_LIMIT, over_packet};
use crate::held::{Held, MainPacket, Need};
use std::alloc::Global;
use tiff_dirs::{Dirs, WalkStop};
use xmp_base::{Desk, FileSpan, WindowStop, window};
use xmp_values::{Fault, FileStop, Part, Rule};

/// The tag of the entry whose value is the packet.
const PACKET_TAG: u16 = 700;

/// Whether a rule is one of directories.
fn is_walk_rule(rule: Rule) -> bool
    ensures { result ≡ is_walk_rule rule }
{
    matches!(
        rule,
        Rule::TwoPackets
            | Rule::ShortHeader
            | Rule::DirectoryOut
            | Rule::DirectoryTwice
            | Rule::TooManyDirectories
            | Rule::ValueOut
            | Rule::RegionOut
            | Rule::PacketType
            | Rule::Overlap
            | Rule::DirectoryLong
    )
}

/// A broken rule at a place of the file, with its numbers.
fn image_fault(rule: Rule, place: u64, x: u64, y: u64) -> Fault
    ensures { result ≡ image_fault rule place x y }
{
    Fault {
        x,
        y,
        ..Fault::at(rule, Part::File, place)
    }
}

/// Why a file that isn't walked is refused. A walk tells no other rules than those of directories.
fn walk_stop(stop: WalkStop) -> FileStop
    ensures { result ≡ walk_stop stop }
{
    match stop {
        WalkStop::Fault(rule, place, x, y) => {
            if is_walk_rule(rule) {
                FileStop::Fault(image_fault(rule, place, x, y))
            } else {
                FileStop::Memory
            }
        }
        WalkStop::Device => FileStop::Device,
        WalkStop::Memory => FileStop::Memory,
    }
}

/// Whether a range lies in a file of `size` bytes.
fn lies_in(range: FileSpan, size: u64) -> bool
    ensures { result ≡ (nat_le range.start range.end && nat_le range.end size) }
{
    range.start <= range.end && range.end <= size
}

/// What is kept of a known TIFF or BigTIFF file of this length: its directories, and the main packet.
pub fn load_image<D: Desk>(
    alloc: Global,
    desk: &mut D,
    name: &str,
    size: u64,
    need: Need,
) -> Result<Held, FileStop>
    requires known { IsTrue (is_known (D.state desk.old) name.now) }
    requires len { len_of (D.state desk.old) name.now ≡ size }
    requires told { Told (D.state desk.old).files (λ files. length (bytes_of files name.now) ≡ size) }
    requires kind { Told (D.state desk.old).files (λ files. (kind : Kind) × HasDirectories kind × (known (bytes_of files name.now) ≡ Ok kind)) }
    ensures call { SizedCall need (D.state desk.old) (D.state desk.new) name.now size result }
{
    let dirs = match Dirs::walk_known(alloc, desk, name, size) {
        Ok(dirs) => dirs,
        Err(stop) => return Err(walk_stop(stop)),
    };
    let Some(entry) = dirs.first_tag(PACKET_TAG) else {
        return Ok(Held::image(need, size, dirs, None));
    };
    let range = entry.value;
    if !lies_in(range, size) {
        return Err(FileStop::Fault(image_fault(Rule::ValueOut, entry.place, 0, 0)));
    }
    let len = range.end - range.start;
    if len > PACKET_LIMIT {
        return Err(FileStop::Fault(over_packet(len)));
    }
    match window(alloc, desk, name, range.start, len as usize) {
        Ok(bytes) => {
            let at = range.start;
            Ok(Held::image(need, size, dirs, Some(MainPacket { at, bytes })))
        }
        Err(WindowStop::Device) => Err(FileStop::Device),
        Err(WindowStop::Memory) => Err(FileStop::Memory),
    }
}
