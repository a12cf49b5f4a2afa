//! What a relocation changes of a TIFF or BigTIFF file, and the directories of the new one.
//!
//! The packet is put at the file's end, after a copy of the first directory where that has no entry of
//! it; a count and an offset are exchanged, and all other bytes stay. It stands on `tiff_dirs`,
//! `xmp_base`, `xmp_values` and `byteorder`. TIFF 6.0, section 2; XMP Specification Part 3, TIFF.
#![tactic(auto)]

mod laws;
mod numbers;
mod relocation;

pub use laws::{new_file_is_walked, old_bytes_stay};
pub use relocation::Relocation;
