//! The pieces of an XML text, each read from left to right.
//!
//! `token_of` reads exactly where a piece stands, and else names the rule. Text that needs no
//! change is a slice of the input. It stands on `xml_grammar`, which says how each piece is
//! spelled, on `xmp_values`, `simdutf8` and `memchr`. XML 1.0 (fifth edition), Namespaces in
//! XML 1.0.
#![tactic(auto)]

mod classes;
mod declarations;
mod lines;
mod names;
mod references;
mod runs;
mod searches;
mod sections;
mod stops;
mod tags;
mod texts;
mod tokens;
mod values;

pub use texts::{after_mark, text_of};
pub use tokens::token_of;
/// The least rule that holds for what stands at a place, or out of memory.
pub use xmp_values::RuleStop as TokenStop;
