//! An image resource block that was found.
ghost use Rattle.std.specs.Prelude.{◌≡◌, ◌+◌, ◌^◌, ◌<◌};

use std::mem::size_of;

/// A block that was found, by its places.
#[derive(Clone, Copy, Debug, PartialEq, Eq)]
pub struct Block {
    pub start: u64,
    pub body: u64,
    pub size: u32,
    pub id: u16,
    /// The number of pad bytes after the data, 0 or 1.
    pub pad: u8,
    ghost fits: { body + size + pad < 2 ^ 64 },
}

// 16 MiB of the smallest blocks are 1,398,101 of these.
const _: () = prove!(size_of::<Block>() <= 24);

impl Block {
    /// The place after the data.
    pub fn body_end(&self) -> u64
        ensures { result ≡ self.now.body + self.now.size }
    {
        self.body + self.size as u64
    }

    /// The place after the pad byte.
    pub fn end(&self) -> u64
        ensures { result ≡ self.now.body + self.now.size + self.now.pad }
    {
        self.body + self.size as u64 + self.pad as u64
    }
}
