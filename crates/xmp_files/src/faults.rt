//! The refusals of a file.
ghost use Rattle.std.specs.Prelude.{◌≡◌};
ghost use Rattle.xmp_files.specs.Faults.{gap_at, over_extended, no_file, over_limit, not_known, short_offsets, not_built, over_packet};

use xmp_values::{Fault, Part, Rule};

/// The most bytes of a file.
pub const FILE_LIMIT: u64 = 1 << 40;

/// The most bytes of a payload.
pub const PACKET_LIMIT: u64 = 1 << 24;

/// FILE isn't there.
pub fn no_file() -> Fault
    ensures { result ≡ no_file }
{
    Fault::at(Rule::NoFile, Part::File, 0)
}

/// FILE is longer than its limit.
pub fn over_limit(size: u64) -> Fault
    ensures { result ≡ over_limit size }
{
    Fault {
        x: size,
        y: FILE_LIMIT,
        ..Fault::at(Rule::FileLimit, Part::File, 0)
    }
}

/// FILE is of no kind.
pub fn not_known() -> Fault
    ensures { result ≡ not_known }
{
    Fault::at(Rule::NotKnown, Part::File, 0)
}

/// A BigTIFF file whose offsets don't have 8 bytes.
pub fn short_offsets() -> Fault
    ensures { result ≡ short_offsets }
{
    Fault::at(Rule::BigTiff, Part::File, 0)
}

/// A form that isn't built yet.
pub fn not_built() -> Fault
    ensures { result ≡ not_built }
{
    Fault::at(Rule::NotBuilt, Part::File, 0)
}

/// The main payload is longer than its limit.
pub fn over_packet(size: u64) -> Fault
    ensures { result ≡ over_packet size }
{
    Fault {
        x: size,
        y: PACKET_LIMIT,
        ..Fault::at(Rule::XmpLimit, Part::Main, 0)
    }
}

/// The extended text is longer than the limit, by what its first portion says.
pub fn over_extended(size: u64) -> Fault
    ensures { result ≡ over_extended size }
{
    Fault {
        x: size,
        y: PACKET_LIMIT,
        ..Fault::at(Rule::XmpLimit, Part::Extended, 0)
    }
}

/// The portions of the extended text tile it up to this place alone.
pub fn gap_at(place: u64) -> Fault
    ensures { result ≡ gap_at place }
{
    Fault::at(Rule::Gap, Part::Extended, place)
}
