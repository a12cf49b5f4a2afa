//! Why a list of resources isn't read.

/// The place of the block that the bytes end in, or out of memory.
#[derive(Clone, Copy, Debug, PartialEq, Eq, Drop)]
pub enum IrbStop {
    Fault(u64),
    Memory,
}

/// The place in the file of the block that the range ends in; or the device failed, or out of memory.
#[derive(Clone, Copy, Debug, PartialEq, Eq, Drop)]
pub enum ScanStop {
    Fault(u64),
    /// A call of the device failed, and was counted.
    Device,
    Memory,
}
