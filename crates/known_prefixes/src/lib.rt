//! The prefixes that are known to every reader and writer, and their namespaces.
//!
//! Paths look a prefix up here first, and a written text declares a known namespace under its own
//! prefix. It promises both directions of one table by its definition, over the namespaces of
//! `xmp_values` (ISO 16684-1, clause 8; XMP Specification Part 2).
#![tactic(auto)]

mod prefixes;
mod spaces;

pub use prefixes::{begins_xml, fixed_prefix, is_fixed, known_prefix};
pub use spaces::{is_known, known_space};
