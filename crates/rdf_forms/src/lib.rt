//! The forms of RDF/XML in which XMP is written: roles, forms, and what breaks them.
//!
//! Its `specs/` say which element has which role, what the value of each element is, and
//! which rules an element can break, apart from any code. It stands on `xml_grammar` and
//! `xmp_tree`. ISO 16684-1, clause 7; RDF/XML Syntax.
#![tactic(auto)]

mod admission;
mod form_rules;
mod formed;
mod forms;
mod laws;
mod member_names;
mod member_rules;
mod name_rules;
mod parts;
mod roles;
mod rules;
mod visits;
mod words;

pub use formed::Formed;
pub use forms::Form;
pub use laws::{least_rule, settled_levels};
pub use name_rules::{about_bytes, about_text};
pub use parts::{first_element, lang_value, rdf_value};
pub use roles::{Holder, Role};
pub use rules::{broken, broken_top};
pub use visits::{members_holder, node_holder};
pub use words::{is_member_name, is_rdf};
