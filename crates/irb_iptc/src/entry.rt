//! One dataset.
//!
//! 1C | record number | dataset number | count, 2 bytes | bytes
//! 1C | record number | dataset number | 80 and width, 2 bytes | count, 1 to 4 bytes | bytes
ghost use Rattle.std.specs.List.{list_all};
ghost use Rattle.std.specs.Prelude.{◌≡◌, ◌==◌, ◌+◌, ◌<◌, ◌≤◌, length, drop, slice_index, IfOk, IfSome};
ghost use Rattle.irb_iptc.specs.Entries.{EntryAt, MarkedAt, CountIs};

use byteorder::{BigEndian, ByteOrder};
use xmp_values::Rule;

/// The numbers of a dataset, and where its bytes stand in the block.
#[derive(Clone, Copy, Debug, PartialEq, Eq)]
pub struct Entry {
    pub start: usize,
    pub len: usize,
    pub section: u8,
    pub number: u8,
}

const MARKER: u8 = 0x1c;

/// The dataset at a place of the block. None where zero bytes alone are left, or none.
pub fn entry_at(block: &[u8], at: usize) -> Result<Option<Entry>, Rule>
    requires { at ≤ length block.now }
    ensures further { IfOk result (λ found. IfSome found (λ e. (at < e.start + e.len) × (e.start + e.len ≤ length block.now))) }
    ensures is { EntryAt block.now at result }
{
    if at == block.len() {
        Ok(None)
    } else if block[at] == MARKER {
        Ok(Some(marked_at(block, at)?))
    } else if are_zero(&block[at..]) {
        Ok(None)
    } else {
        Err(Rule::BadDataset)
    }
}

fn are_zero(bytes: &[u8]) -> bool
    ensures { result ≡ list_all (λ b. b == 0) bytes.now }
{
    bytes.iter().all(|byte| *byte == 0)
}

/// The dataset whose marker stands at a place of the block.
fn marked_at(block: &[u8], at: usize) -> Result<Entry, Rule>
    requires within { at < length block.now }
    requires marked { slice_index block.now at ≡ MARKER }
    ensures further { IfOk result (λ e. (at < e.start + e.len) × (e.start + e.len ≤ length block.now)) }
    ensures is { MarkedAt block.now at result }
{
    let rest = &block[at + 1..];
    if rest.len() < 4 {
        return Err(Rule::DatasetOut);
    }
    let (taken, len) = count_of(&rest[2..])?;
    let start = at + 3 + taken;
    if block.len() - start < len {
        return Err(Rule::DatasetOut);
    }
    Ok(Entry {
        start,
        len,
        section: rest[0],
        number: rest[1],
    })
}

/// The count at the front of these bytes, and how many of them it takes.
fn count_of(bytes: &[u8]) -> Result<(usize, usize), Rule>
    requires { 2 ≤ length bytes.now }
    ensures most { IfOk result (λ c. c.0 ≤ length bytes.now) }
    ensures is { CountIs bytes.now result }
{
    let count = BigEndian::read_u16(bytes);
    if count < 0x8000 {
        return Ok((2, count as usize));
    }
    let width = (count - 0x8000) as usize;
    if width == 0 || width > 4 {
        return Err(Rule::DatasetLong);
    }
    let octets = &bytes[2..];
    if octets.len() < width {
        return Err(Rule::DatasetOut);
    }
    Ok((2 + width, BigEndian::read_uint(octets, width) as usize))
}
