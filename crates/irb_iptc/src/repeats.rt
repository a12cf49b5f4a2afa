//! Texts without those that repeat.
ghost use Rattle.std.specs.Prelude.{◌≡◌, [], map, IfOk};
ghost use Rattle.std.specs.Bool.{OnTrue};
ghost use Rattle.std.specs.List.Sorted.{IsStrictlyIncreasing};
ghost use Rattle.xmp_values.specs.Texts.{texts_of as texts_in};
ghost use Rattle.irb_iptc.specs.Fields.{distinct_after};
ghost use Rattle.irb_iptc.specs.Hashes.{hash_of};

use std::alloc::Global;
use std::hash::{FoldHasher, Hasher};
use xmp_values::{Bytes, Memory, Sequence, TextSet};

/// The texts that differ, where each is first seen.
pub(crate) fn distinct(alloc: Global, texts: Sequence<Bytes>) -> Result<Sequence<Bytes>, Memory>
    ensures { IfOk result (λ kept. kept ≡ distinct_after [] texts) }
{
    // Most lists repeat nothing, and numbers are sorted faster than texts.
    if has_no_repeat(alloc, texts.as_slice())? {
        return Ok(texts);
    }
    first_seen(alloc, texts.as_slice())
}

/// Whether the texts' hashes show that all texts differ. Whoever picks the texts can make hashes
/// collide, so `false` says nothing.
fn has_no_repeat(alloc: Global, texts: &[Bytes]) -> Result<bool, Memory>
    ensures { IfOk result (λ differ. OnTrue differ (distinct_after [] texts.now ≡ texts.now)) }
{
    let mut hashes = hashes_of(alloc, texts)?;
    hashes.sort_unstable();
    Ok(is_rising(hashes.as_slice()))
}

/// The hash of each text.
fn hashes_of(alloc: Global, texts: &[Bytes]) -> Result<Vec<u64>, Memory>
    ensures { IfOk result (λ hashes. hashes.items ≡ map hash_of texts.now) }
{
    let mut hashes = Vec::with_capacity(alloc, texts.len())?;
    for text in texts {
        hashes.push(hash_of(text.as_slice()))?;
    }
    Ok(hashes)
}

fn hash_of(text: &[u8]) -> u64
    ensures { result ≡ hash_of text.now }
{
    let mut hasher = FoldHasher::default();
    hasher.write(text);
    hasher.finish()
}

/// Whether each number is below the next.
fn is_rising(numbers: &[u64]) -> bool
    ensures { OnTrue result (IsStrictlyIncreasing numbers.now) }
{
    for i in 1..numbers.len() {
        if numbers[i - 1] >= numbers[i] {
            return false;
        }
    }
    true
}

/// Copies of the texts that differ, where each is first seen.
fn first_seen(alloc: Global, texts: &[Bytes]) -> Result<Sequence<Bytes>, Memory>
    ensures { IfOk result (λ kept. kept ≡ distinct_after [] texts.now) }
{
    let mut seen = TextSet::new(alloc);
    for text in texts {
        seen.insert(text.as_slice())?;
    }
    copies(alloc, seen.as_slice())
}

/// Copies of texts.
fn copies(alloc: Global, texts: &[&[u8]]) -> Result<Sequence<Bytes>, Memory>
    ensures { IfOk result (λ copies. copies ≡ texts_in texts.now) }
{
    let mut copies = Sequence::new(alloc);
    for text in texts {
        copies.push(Bytes::from_slice(alloc, text)?)?;
    }
    Ok(copies)
}
