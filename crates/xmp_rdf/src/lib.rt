//! Reads RDF/XML: a document to the tree of its properties.
//!
//! The values of elements are given by their forms, and the walk through the tops gives the
//! tree, the places of its properties and the first rule that is broken. It stands on the
//! roles and forms of `rdf_forms`, and on the documents of `xmp_xml`.
//! ISO 16684-1, 7.3 to 7.9; RDF/XML Syntax.
#![tactic(auto)]

mod abouts;
mod hints;
mod laws;
mod meanings;
mod members;
mod merging;
mod owning;
mod parting;
mod reading;
mod texts;
mod tops;
mod values;
mod walk;

pub use laws::settled_reading;
pub use meanings::{Meaning, Places};
pub use merging::{MergeStop, merge};
pub use owning::own;
pub use reading::tree_of;
pub use xmp_values::PlaceStop as RdfStop;
