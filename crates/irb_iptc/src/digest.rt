//! The digest of an IPTC block, and where a list of resources stores it.
ghost use Rattle.std.specs.Prelude.{◌≡◌, ◌≤◌, ◌+◌, length, IfSome};
ghost use Rattle.std.specs.Borrow.{sem};
ghost use Rattle.std.specs.Option.{option_map, option_copied_mut};
ghost use Rattle.md5.specs.Md5.{md5};
ghost use Rattle.irb_iptc.specs.Digest.{IsListed, LendsDigest, bytes_in, digest_in, digest_of_block};
ghost use Rattle.irb_iptc.specs.Reading.{place_of};
ghost use Rattle.irb_iptc.specs.Listing.{Listing, Lists, in_memory};

use crate::block::Block;
use crate::reading::{Next, next_in};
use lent_bytes::array_at_mut;
use md5::{Digest, Md5};
use xmp_base::Span;

/// The id of the block that holds the digest.
const STORED_DIGEST: u16 = 1061;

/// What the stored digest of a block is: its MD5.
pub fn digest_of(block: &[u8]) -> [u8; 16]
    ensures { result ≡ md5 block.now }
{
    Md5::digest(block)
}

/// The digest that a list stores, to be written. The whole is then the old one with its 16 bytes
/// replaced. None exactly where the list's first block 1061 is missing or has another size. It
/// takes no memory.
pub fn stored_digest_mut(bytes: &mut [u8]) -> Option<&mut [u8; 16]>
    requires { IsListed bytes.old }
    ensures* writes_back { sem 𝓛 (LendsDigest bytes.entry result) }
    ensures value { (listing : Listing) → Lists bytes.old 0 listing → option_copied_mut result ≡ option_map (bytes_in bytes.old) (digest_in listing) }
{
    let span = stored_digest(bytes)?;
    Some(array_at_mut(bytes, span.start))
}

/// The range of the digest that a list stores: the data of the first block 1061, if it has 16 bytes.
fn stored_digest(bytes: &[u8]) -> Option<Span>
    requires { IsListed bytes.now }
    ensures within { IfSome result (λ s. (s.end ≡ s.start + 16) × (s.end ≤ length bytes.now)) }
    ensures is { (listing : Listing) → Lists bytes.now 0 listing → result ≡ option_map in_memory (digest_in listing) }
{
    let mut at = 0;
    'next: loop {
        match next_in(bytes, at) {
            Next::Found(block) => {
                if block.id == STORED_DIGEST {
                    return digest_of_block(&block);
                }
                at = block.end() as usize;
            }
            Next::Ended => return None,
            Next::Short => return None,
        }
    }
}

/// The range of a digest of 16 bytes.
fn digest_of_block(block: &Block) -> Option<Span>
    ensures is { result ≡ option_map in_memory (digest_of_block (place_of block.now)) }
    ensures within { IfSome result (λ s. (s.start ≡ block.now.body) × (s.end ≡ block.now.body + block.now.size)) }
{
    if block.size == 16 {
        Some(Span {
            start: block.body as usize,
            end: block.body_end() as usize,
        })
    } else {
        None
    }
}
