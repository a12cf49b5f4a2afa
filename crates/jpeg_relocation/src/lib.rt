//! What a relocation keeps of a JPEG file, where the new segments stand, and the list of the new file.
//!
//! All but the main packet and the joined portions keeps its bytes and its order; regions that stay
//! together are copied in one piece. It stands on `jpeg_regions`, `jpeg_extended`, `xmp_base` and
//! `xmp_values`. Adobe XMP Specification Part 3, sections 1.1.3 and 1.1.3.1; ISO 10918-1, annex B.
#![tactic(auto)]

mod kept;
mod laws;
mod pictures;
mod roles;
mod runs;
#[cfg(test)]
mod tests;

pub use kept::KeptRuns;
pub use laws::{new_file_is_cut, new_lengths, portions_are_new, runs_are_pieces};
pub use pictures::{MovedPictures, PictureIndex};
