//! The layer between devices and trees: which kind a file is, the packet that it holds, and the new
//! file of an edited tree.
//!
//! It promises what is kept of a file or the first fault in the one order of refusals, what it means
//! or the first fault of its XML and RDF, and for an edited tree the plan of the new file or the first
//! fault of its limits; `emit` writes that file, and it is read back as the tree. It reads no byte of a
//! file that is over its limit, and none of a picture. It stands on the devices of `xmp_base`, the
//! packets of `xmp_packets`, the directories of `tiff_dirs`, the documents of `xmp_xml`, the meanings of `xmp_rdf`, the writer
//! `xmp_write` and the law of `round_trip`.
#![tactic(auto)]

mod appending;
mod dividing;
mod emitting;
mod faults;
mod held;
mod images;
mod kinds;
mod laws;
mod loading;
mod meanings;
mod opening;
mod parts;
mod patching;
mod photographs;
mod plans;
mod relocating;

pub use emitting::emit;
pub use faults::{no_file, not_built};
pub use held::{Held, Need};
pub use kinds::{Kind, kind_of};
pub use laws::{file_is_patched, file_is_written, one_kept, one_meaning, one_opened};
pub use loading::load;
pub use opening::{Opened, read_file};
pub use patching::patch;
pub use plans::{Outcome, Planned, plan};
pub use xmp_values::{FaultStop as OpenStop, FileStop as LoadStop};
