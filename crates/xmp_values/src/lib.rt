//! What every crate speaks of: lists, texts, names and sets of them, characters, hints,
//! digits, words, rules, faults and the shapes of failure.
//!
//! To contracts each type is the plain value that it stands for: a `Sequence` its list, a
//! `Text` its bytes, `Words` a list of texts. Nothing here reads a file; it stands on `std`
//! alone. XML 1.0 (fifth edition) and Namespaces in XML 1.0 for characters and names.
#![tactic(auto)]

mod characters;
mod digits;
mod faults;
mod hint_maps;
mod hints;
mod memory;
mod names;
mod rules;
mod sequence;
mod spaces;
mod span;
mod stops;
mod text;
mod text_sets;
mod words;

pub use characters::{
    is_blank, is_blank_byte, is_char, is_char_text, is_name, is_name_char, is_name_start,
    leading_blanks,
};
pub use digits::{Digits, is_hex_digit};
pub use faults::{Fault, Part, Place};
pub use hint_maps::HintMap;
pub use hints::{Hint, Hints, is_valid_hint};
pub use memory::Memory;
pub use names::{NameSet, Named, names_differ};
pub use rules::Rule;
pub use sequence::{Bytes, Sequence};
pub use spaces::{is_rdf_namespace, is_xml_namespace, is_xmlns_namespace};
pub use span::Span;
pub use stops::{DeviceStop, FaultStop, FileStop, PlaceStop, RuleStop};
pub use text::{Name, Text};
pub use text_sets::TextSet;
pub use words::Words;

#[cfg(test)]
mod tests;
