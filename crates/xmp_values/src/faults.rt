//! Where a rule is broken.
use crate::rules::Rule;

/// The part of the work in which a place is counted.
#[derive(Clone, Copy, Debug, PartialEq, Eq)]
pub enum Part {
    /// The file, by bytes.
    File,
    /// The text of the main packet, by bytes.
    Main,
    /// The extended text, by bytes.
    Extended,
    /// The script, by lines from 1, or by bytes where it isn't UTF-8.
    Script,
    /// The words of the command line, the command being 0.
    Words,
    /// The Exif block, by bytes.
    Exif,
    /// The IPTC block, by bytes.
    Iptc,
}

/// A place in a part of the work.
#[derive(Clone, Copy, Debug, PartialEq, Eq)]
pub struct Place {
    pub part: Part,
    pub at: u64,
}

/// A broken rule, its place, and two numbers whose meaning the rule gives.
#[derive(Clone, Copy, Debug, PartialEq, Eq)]
pub struct Fault {
    pub rule: Rule,
    pub place: Place,
    pub x: u64,
    pub y: u64,
}
