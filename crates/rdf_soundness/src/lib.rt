//! That a document that breaks no rule has a well-formed tree: laws over the definitions of
//! `rdf_forms`, apart from any code.
//!
//! It stands on `rdf_forms`, `xml_grammar` and `xmp_tree`.
#![tactic(auto)]

mod laws;

pub use laws::{formed_properties, formed_tree};
