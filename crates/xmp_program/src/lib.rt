//! The program `xmp`: the words of the command line, real files and the standard streams
//! are handed to `xmp_cli::run`, and its status becomes the exit status.
//!
//! Each program of the repository is a `main` that calls `start`.
#![tactic(auto)]

mod exit;
mod starting;
#[cfg(test)]
mod words_tests;

pub use exit::exit_code;
pub use starting::start;
