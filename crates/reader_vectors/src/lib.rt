//! Texts read as tokens, documents, elements of RDF and trees, with values from the standards.
//!
//! The tests of the four crates that read a packet stand here, over their public calls: a crate
//! with tests of its own is proved a second time with them. It stands on `xmp_rdf`, `rdf_forms`,
//! `xmp_xml` and `xml_tokenizer`.
//! XML 1.0; Namespaces in XML 1.0; ISO 16684-1, clause 7.
#![tactic(auto)]

#[cfg(test)]
mod documents;
#[cfg(test)]
mod elements;
#[cfg(test)]
mod meanings;
#[cfg(test)]
mod merging;
#[cfg(test)]
mod tokens;
