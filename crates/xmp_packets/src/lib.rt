//! What a payload holds as an XMP packet: its text, and whether it may be written in its place.
//!
//! Readers and writers of files both stand on it. It promises the packet's text and its header and
//! trailer by their definitions, and stands on the white space of `xmp_values`.
//! Packets are ISO 16684-1, 7.3.2.
#![tactic(auto)]

mod packets;
#[cfg(test)]
mod tests;

pub use packets::{Packet, PacketInfo};
