//! The Exif fields that XMP has too: texts, creators and dates, as the property would hold them.
//!
//! A block's values are the first of each tag, or its first fault is told. A date is a value exactly
//! where its day and its time exist. It stands on `field_values`, on the numbers of `tiff_dirs` and
//! on `xmp_values`. Exif 2.31; Metadata Working Group, Guidelines for Handling Image Metadata 2.0.
#![tactic(auto)]

mod block;
mod dates;
mod properties;
mod raw;
#[cfg(test)]
mod tests;
mod texts;

pub use block::{Entry, raw_of};
pub use properties::{ExifFields, fields};
pub use raw::{Met, RawExif};
pub use xmp_values::PlaceStop as ExifStop;
