//! Photoshop's image resources, and the datasets of IPTC's Information Interchange Model.
//!
//! A list of resources and a block of datasets are read to their one meaning, or to the first
//! fault with its place; no data of a resource is looked at. A list may stand in a range of a
//! device's file. The digest that a list stores for its block is lent for writing. It stands on
//! `xmp_base`, `lent_bytes`, `field_values`, `byteorder` and `md5`.
//! Adobe Photoshop File Formats Specification, "Image Resource Blocks"; IPTC-NAA IIM 4.2.
#![tactic(auto)]

mod block;
mod datasets;
mod dates;
mod digest;
mod entry;
#[cfg(test)]
mod field_tests;
mod fields;
mod head;
mod laws;
mod list;
mod reading;
mod repeats;
#[cfg(test)]
mod scan_tests;
mod scanning;
mod stops;
#[cfg(test)]
mod tests;

pub use datasets::Datasets;
pub use digest::{digest_of, stored_digest_mut};
pub use fields::iptc_fields;
pub use laws::{exchange, one_answer};
pub use list::Resources;
pub use stops::{IrbStop, ScanStop};
pub use xmp_values::PlaceStop as IptcStop;
