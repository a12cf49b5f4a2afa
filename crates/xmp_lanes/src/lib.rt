//! Runs at the front of bytes, found by lanes.
//!
//! Each is the length of a longest prefix and equals its plain definition, for every length. None
//! refuses or takes memory. It stands on the lanes of `core::simd` and on the white space of
//! `xmp_values`. Which bytes a text escapes is XML 1.0, 2.4 and 3.3.3.
#![tactic(auto)]

mod blank;
mod loads;
mod plain;
mod same;
#[cfg(test)]
mod tests;

pub use blank::blank_run;
pub use plain::{Escape, plain_run};
pub use same::same_run;
