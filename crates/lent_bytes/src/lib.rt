//! Parts of a slice, lent for writing.
//!
//! Whoever lent the whole slice has it back with that part replaced, which is what a change in
//! place of one segment, value or resource of a file rests on. It stands on `std` alone.
#![tactic(auto)]

mod lending;

pub use lending::{array_at_mut, part_mut};
