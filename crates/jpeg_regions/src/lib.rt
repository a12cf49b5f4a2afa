//! The one list of regions of a JPEG file: marker segments up to the first scan, and the tail.
//!
//! A file in memory and a file of a device are cut by one reader, which is told the bytes that
//! it wants and wants no byte of a tail after its marker. A list is the only one of its file,
//! and a fault is the file's first. It stands on `xmp_base` and `lent_bytes`.
//! ISO 10918-1, annex B; Adobe XMP Specification Part 3, JPEG.
#![tactic(auto)]

mod cutting;
mod from_desk;
mod kind;
mod laws;
mod list;
mod marker;
mod reading;
#[cfg(test)]
mod tests;

pub use kind::RegionKind;
pub use laws::{exchange, one_answer, packet_exchanged};
/// The bytes of a region's payload, to be written.
pub use lent_bytes::part_mut as payload_mut;
pub use list::Regions;
pub use xmp_values::{DeviceStop as CutStop, PlaceStop as JpegStop};
