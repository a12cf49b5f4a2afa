//! What the fields of IPTC and Exif share: the text of a field's bytes, and civil dates, times and
//! offsets from UTC as they are written in XMP.
//!
//! It promises that a date is written exactly where the Gregorian calendar has that day, which
//! `jiff` decides and the definition says in plain arithmetic. It stands on `xmp_values`,
//! `simdutf8` and `jiff`.
#![tactic(auto)]

mod dates;
mod laws;
#[cfg(test)]
mod tests;
mod texts;
mod zones;

pub use dates::{date_exists, date_text, offset_text, time_exists, time_text};
pub use laws::texts_are_chars;
pub use texts::field_text;
pub use zones::{date_stays, zone_of};
