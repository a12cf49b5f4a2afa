//! The canonical text of property trees, packets, splits, and the lines that show a tree.
//!
//! It promises the text of a tree by its definition, byte for byte: the prefixes of the namespaces
//! that are written, the text and its packet, the largest front of a tree that is too long, and the
//! lines of the command `tree`. It stands on the trees of `xmp_tree`, the paths of `xmp_paths` and
//! the runs of `xmp_lanes`. XMP's RDF/XML is ISO 16684-1, clause 7.
#![tactic(auto)]

mod forms;
mod giving;
mod laws;
mod listing;
mod placing;
mod prefixes;
mod splits;
mod uses;
mod values;
mod writing;

pub use forms::Form;
pub use laws::{prefixes_are_told_apart, the_least_free_number};
pub use listing::{lines, value_lines};
pub use prefixes::Prefixes;
pub use splits::{Split, SplitStop};
pub use writing::{measure, packet_into, pad_into, write_into};
