//! The name of an extended text.
ghost use Rattle.std.specs.Prelude.{◌≡◌, IfOk};
ghost use Rattle.jpeg_extended.specs.Written.{name_text};

use md5::{Digest, Md5};
use std::alloc::Global;
use xmp_values::{Digits, Memory};

/// The name of an extended text: its MD5 (RFC 1321) in capital digits.
///
/// # Errors
/// `Memory`.
pub fn name_of(alloc: Global, text: &[u8]) -> Result<Digits, Memory>
    ensures { IfOk result (λ name. name ≡ name_text text.now) }
{
    let digits = hex::encode_upper(alloc, Md5::digest(text))?;
    match Digits::read(digits.as_bytes()) {
        Some(name) => Ok(name),
        // 16 bytes have 32 digits
        None => Err(Memory),
    }
}
