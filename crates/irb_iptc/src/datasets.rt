//! The datasets of a block.
ghost use Rattle.std.specs.Prelude.{◌≡◌, ◌<◌, length, slice_get, Some};
ghost use Rattle.std.specs.Option.{option_map};
ghost use Rattle.irb_iptc.specs.Entries.{IptcAnswer};

use crate::IptcStop;
use crate::entry::{Entry, entry_at};
use std::alloc::Global;
use std::marker::Model;

/// The datasets of an IPTC block, in their order.
#[derive(Drop)]
pub struct Datasets {
    block: Vec<u8>,
    entries: Vec<Entry>,
}

impl Model for Datasets {
    ghost use Rattle.std.specs.Prelude.{List, map, length, All};
    ghost use Rattle.irb_iptc.specs.Datasets.{Field};
    ghost use Rattle.irb_iptc.specs.Entries.{field_of, IsWithin};

    ghost Value = { List Field };

    ghost view = { λ d. map (field_of d.block.items) d.entries.items };

    ghost invariant = { λ d. All (IsWithin (length d.block.items)) d.entries.items };
}

impl Datasets {
    /// The datasets of a block, or its first fault, of rules 101 to 103, with its place in the block.
    pub fn of(alloc: Global, block: &[u8]) -> Result<Datasets, IptcStop>
        ensures { IptcAnswer block.now result }
    {
        let mut entries = Vec::new(alloc);
        let mut at = 0;
        'next: loop {
            match entry_at(block, at) {
                Ok(None) => break,
                Ok(Some(entry)) => {
                    at = entry.start + entry.len;
                    let Ok(()) = entries.push(entry) else {
                        return Err(IptcStop::Memory);
                    };
                }
                Err(rule) => return Err(IptcStop::Fault(rule, at as u64)),
            }
        }
        let Ok(block) = Vec::from_slice(alloc, block) else {
            return Err(IptcStop::Memory);
        };
        Ok(Datasets { block, entries })
    }

    /// The number of datasets.
    pub fn len(&self) -> usize
        ensures { result ≡ length self.now }
    {
        self.entries.len()
    }

    /// The record number and the dataset number of dataset `i`.
    pub fn number_at(&self, i: usize) -> (u8, u8)
        requires { i < length self.now }
        ensures { option_map (λ f. (f.0, f.1)) (slice_get self.now i) ≡ Some result }
    {
        let entry = self.entries[i];
        (entry.section, entry.number)
    }

    /// The bytes of dataset `i`.
    pub fn bytes_at(&self, i: usize) -> &[u8]
        requires { i < length self.now }
        ensures { option_map (λ f. f.2) (slice_get self.now i) ≡ Some result.now }
    {
        let entry = self.entries[i];
        &self.block[entry.start..entry.start + entry.len]
    }
}
