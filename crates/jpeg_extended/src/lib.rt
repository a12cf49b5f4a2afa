//! Extended XMP in JPEG files: the portions of a text that fits no single segment.
//!
//! Whether portions tile a text is known from their heads alone, and the joined text is the only
//! one. The portions of a text of 1 to 16,777,216 bytes join to it in whatever order they stand.
//! It stands on `xmp_base` and `xmp_values`. Adobe XMP Specification Part 3, section 1.1.3.1.
#![tactic(auto)]

mod from_desk;
mod joiner;
mod laws;
mod naming;
#[cfg(test)]
mod tests;
mod tiling;
mod writing;

pub use from_desk::{JoinStop, joined_from, named_from};
pub use joiner::Joiner;
pub use laws::{heads_tell, joins_again, one_answer};
pub use naming::name_of;
pub use tiling::{ExtStop, Head, tile};
pub use writing::{portion_count, portion_into, segment_len};
