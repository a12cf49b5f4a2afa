//! The grammar of XML packets: elements as a reader gives them, and what a text means.
//!
//! Its `specs/` say what a document is and what a text's first fault is, apart from any
//! code. The reader, RDF and the writer share them. It stands on `xmp_values`.
//! XML 1.0 (fifth edition), Namespaces in XML 1.0.
#![tactic(auto)]

mod elements;
mod laws;
mod tags;
mod tokens;

pub use elements::{Attribute, Attributes, Child, Children, Element};
pub use laws::{
    beginnings, document_gate, document_height, least_rule, one_document, one_fault, one_piece,
    sound_document, worked_texts,
};
pub use tags::{QName, RawAttribute, Tag};
pub use tokens::{Mode, Token};
