//! The list of blocks.
ghost use Rattle.std.specs.Prelude.{◌≡◌, length, map, slice_get};
ghost use Rattle.std.specs.Option.{option_map};
ghost use Rattle.irb_iptc.specs.Listing.{of_id, in_memory};
ghost use Rattle.irb_iptc.specs.Reading.{ListAnswer, place_of};

use crate::block::Block;
use crate::reading::{Next, next_in};
use crate::stops::IrbStop;
use std::alloc::Global;
use std::marker::Model;
use xmp_base::{FileSpan, Span};

/// The blocks of a list, in their order, by places in what was read.
#[derive(Drop)]
pub struct Resources {
    pub(crate) blocks: Vec<Block>,
    pub(crate) end: u64,
}

impl Model for Resources {
    ghost use Rattle.std.specs.Prelude.{map};
    ghost use Rattle.irb_iptc.specs.Listing.{Listing};
    ghost use Rattle.irb_iptc.specs.Reading.{place_of};

    ghost Value = { Listing };

    ghost view = { λ r. record { blocks = map place_of r.blocks.items; end = r.end } };
}

impl Resources {
    /// The blocks of a list in memory, or the place of the block that the bytes end in.
    pub fn of(alloc: Global, bytes: &[u8]) -> Result<Resources, IrbStop>
        ensures { ListAnswer bytes.now 0 result }
    {
        let mut blocks = Vec::new(alloc);
        let mut at = 0;
        'next: loop {
            match next_in(bytes, at) {
                Next::Ended => break,
                Next::Short => return Err(IrbStop::Fault(at as u64)),
                Next::Found(block) => {
                    at = block.end() as usize;
                    let Ok(()) = blocks.push(block) else {
                        return Err(IrbStop::Memory);
                    };
                }
            }
        }
        Ok(Resources {
            blocks,
            end: at as u64,
        })
    }

    /// The data of the first block of an id, of a list in memory.
    pub fn span(&self, id: u16) -> Option<Span>
        ensures { result ≡ option_map (λ b. in_memory b.body) (slice_get (of_id id self.now.blocks) 0) }
    {
        let block = first_of(self.blocks.as_slice(), id)?;
        Some(Span {
            start: block.body as usize,
            end: block.body_end() as usize,
        })
    }

    /// The data of the first block of an id.
    pub fn first_at(&self, id: u16) -> Option<FileSpan>
        ensures { result ≡ option_map (λ b. b.body) (slice_get (of_id id self.now.blocks) 0) }
    {
        let block = first_of(self.blocks.as_slice(), id)?;
        Some(FileSpan {
            start: block.body,
            end: block.body_end(),
        })
    }

    /// The data of the second block of an id.
    pub fn second_at(&self, id: u16) -> Option<FileSpan>
        ensures { result ≡ option_map (λ b. b.body) (slice_get (of_id id self.now.blocks) 1) }
    {
        let block = second_of(self.blocks.as_slice(), id)?;
        Some(FileSpan {
            start: block.body,
            end: block.body_end(),
        })
    }

    /// The first block of an id, from its signature to the end of its pad byte, where that stands.
    pub fn whole_at(&self, id: u16) -> Option<FileSpan>
        ensures { result ≡ option_map (λ b. b.whole) (slice_get (of_id id self.now.blocks) 0) }
    {
        let block = first_of(self.blocks.as_slice(), id)?;
        Some(FileSpan {
            start: block.start,
            end: block.end(),
        })
    }

    /// The place where the list ends.
    pub fn list_end(&self) -> u64
        ensures { result ≡ self.now.end }
    {
        self.end
    }
}

/// The first block of an id.
fn first_of(blocks: &[Block], id: u16) -> Option<Block>
    ensures { option_map place_of result ≡ slice_get (of_id id (map place_of blocks.now)) 0 }
{
    for block in blocks {
        if block.id == id {
            return Some(*block);
        }
    }
    None
}

/// The second block of an id.
fn second_of(blocks: &[Block], id: u16) -> Option<Block>
    ensures { option_map place_of result ≡ slice_get (of_id id (map place_of blocks.now)) 1 }
{
    let mut seen = false;
    for block in blocks {
        if block.id == id {
            if seen {
                return Some(*block);
            }
            seen = true;
        }
    }
    None
}
