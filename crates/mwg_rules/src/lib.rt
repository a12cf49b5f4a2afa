//! Which source of a photograph's metadata is preferred, and what a tree of XMP becomes by that.
//!
//! Twelve properties of XMP stand in Exif or IPTC too. For each the source is chosen by one table of
//! four rows, and the chosen value is put into the tree, which stays well-formed and keeps all its
//! other properties in their order. What was reconciled prefers itself again. It stands on
//! `exif_fields`, `irb_iptc`, `field_values` and `xmp_tree`. Metadata Working Group, Guidelines for
//! Handling Image Metadata 2.0.
#![tactic(auto)]

mod choices;
#[cfg(test)]
mod form_tests;
mod forms;
mod laws;
mod lines;
mod properties;
mod reconciled;
#[cfg(test)]
mod samples;
#[cfg(test)]
mod tests;

pub use choices::{Choice, Choices, Sources, prefer};
pub use laws::{prefers_itself, stale_is_changed};
pub use lines::stale;
pub use properties::{Form, PROPERTIES, Property};
pub use reconciled::reconcile;
