//! Laws of where values and tables stand. The function does nothing: each clause holds of every file.
ghost use Rattle.tiff_dirs.specs.Standing.{EntriesStand, PacketInPlace, TablesStand};

/// What a walk reads lies in named ranges other than the packet's value and the pictures; values lie
/// in the file; and a packet that stands apart from its entry may be exchanged in its place.
pub fn values_stand()
    ensures tables { TablesStand }
    ensures entries { EntriesStand }
    ensures packet { PacketInPlace }
{}
