//! Numbers in a file's byte order, added to bytes.
ghost use Rattle.std.specs.Prelude.{◌≡◌, ◌≤◌, ◌<◌, ◌^◌, ◌++◌, OnOk};
ghost use Rattle.tiff_relocation.specs.Relocation.{number_bytes};

use byteorder::{BigEndian, ByteOrder, LittleEndian};
use xmp_values::Memory;

/// Adds a number in so many bytes.
#[tactic(auto, unfolding(crate::specs::Relocation::number_bytes))]
pub fn push_number(bytes: &mut Vec<u8>, big: bool, width: u64, number: u64) -> Result<(), Memory>
    requires least { 1 ≤ width }
    requires most { width ≤ 8 }
    requires fits { number < 256 ^ width }
    ensures { OnOk result (bytes.new.items ≡ bytes.old.items ++ number_bytes big width number) }
{
    let mut room = [0; 8];
    let room = &mut room[..width as usize];
    if big {
        BigEndian::write_uint(room, number, width as usize);
    } else {
        LittleEndian::write_uint(room, number, width as usize);
    }
    bytes.extend_from_slice(room)?;
    Ok(())
}
