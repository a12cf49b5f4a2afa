//! The XML of packets: a text to its one document, or to its first fault.
//!
//! The reader goes over a text once, from left to right, with the open elements on a stack.
//! It stands on `xml_tokenizer`, which reads the tokens, and on `xml_grammar`, which says what
//! a document and a fault are, and whose element types it offers too. XML 1.0 (fifth edition)
//! and Namespaces in XML 1.0, without document types.
#![tactic(auto)]

mod builder;
mod contents;
mod declarations;
mod hints;
mod laws;
mod named;
mod numbers;
mod pending;
mod places;
mod reading;
mod scopes;
mod stack;
mod steps;
mod tags;

pub use contents::Doc;
pub use laws::document_or_fault;
pub use reading::read;
pub use xml_grammar::{Attribute, Attributes, Child, Children, Element};
/// The rule that a text breaks first and the place, in bytes, or out of memory.
pub use xmp_values::PlaceStop as XmlStop;
