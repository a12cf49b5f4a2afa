//! Devices: files by name and sinks of bytes, in memory and real ones.
//!
//! A trait says by its `state` what a device holds, and each call has one record of
//! clauses over that state. What is read is what the files hold, an answer of failure
//! was counted, and every loop over a device takes at least a byte a turn.
//! It stands on `xmp_values`, whose types it offers too.
#![tactic(auto)]

mod device;
mod file_desk;
mod file_span;
#[cfg(test)]
mod file_tests;
mod memory_desk;
mod memory_sink;
mod sparse_desk;
mod std_sink;
#[cfg(test)]
mod tests;
mod whole;
mod windows;

pub use device::{Desk, Failed, Sink, SizeStop};
pub use file_desk::FileDesk;
pub use file_span::FileSpan;
pub use memory_desk::MemoryDesk;
pub use memory_sink::MemorySink;
pub use sparse_desk::SparseDesk;
pub use std_sink::StdSink;
pub use whole::{ReadStop, read_all};
pub use windows::{WindowStop, append, copy_range, fill_from, put_inside, window};
pub use xmp_values::{
    Bytes, Digits, Fault, Hint, Hints, Memory, Name, Part, Place, Rule, Sequence, Span, Text,
    Words, is_char, is_name,
};
