//! The text that is read and is not yet a child.

ghost use Rattle.std.specs.Prelude.{◌≡◌, [], ◌++◌, IfOk, encode_utf8};
ghost use Rattle.xmp_xml.specs.Building.{is_nil};

use std::alloc::Global;
use std::marker::Model;
use xmp_values::{Bytes, Memory, Text};

/// Text that grows. A single piece of the file is only borrowed. Contracts see the bytes.
#[derive(Drop)]
pub struct Pending<'p> {
    kept: Kept<'p>,
}

#[derive(Drop)]
enum Kept<'p> {
    One(Text<'p>),
    Many(Bytes),
}

impl<'p> Model for Pending<'p> {
    ghost use Rattle.std.specs.Prelude.{List, ℕ};

    ghost Value = { List ℕ };

    ghost use Rattle.xmp_xml.specs.Kept.{bytes_of};

    ghost view = { λ t. bytes_of t.kept };
}

impl<'p> Pending<'p> {
    pub fn new() -> Pending<'p>
        ensures { result ≡ [] }
    {
        Pending {
            kept: Kept::One(Text::raw(b"")),
        }
    }

    fn bytes(&self) -> &[u8]
        ensures { result.now ≡ self.now }
    {
        match &self.kept {
            Kept::One(text) => text.bytes(),
            Kept::Many(bytes) => bytes.as_slice(),
        }
    }

    #[tactic(auto, using(crate::proofs::Nests::nil_is))]
    pub fn is_empty(&self) -> bool
        ensures { result ≡ is_nil self.now }
    {
        self.bytes().len() == 0
    }

    pub fn into_text(self, alloc: Global) -> Result<Text<'p>, Memory>
        ensures { IfOk result (λ t. t ≡ self.entry) }
    {
        let Pending { kept } = self;
        match kept {
            Kept::One(text) => Ok(text),
            Kept::Many(bytes) => Text::own(alloc, bytes),
        }
    }

    /// The bytes, owned.
    fn into_bytes(self, alloc: Global) -> Result<Bytes, Memory>
        ensures { IfOk result (λ b. b ≡ self.entry) }
    {
        let Pending { kept } = self;
        match kept {
            Kept::One(text) => Bytes::from_slice(alloc, text.bytes()),
            Kept::Many(bytes) => Ok(bytes),
        }
    }

    /// The text with more after it.
    #[tactic(auto, using(crate::proofs::Nests::nil_front))]
    pub fn with(self, alloc: Global, more: Text<'p>) -> Result<Pending<'p>, Memory>
        ensures { IfOk result (λ t. t ≡ self.entry ++ more.entry) }
    {
        if self.is_empty() {
            return Ok(Pending {
                kept: Kept::One(more),
            });
        }
        let bytes = self.into_bytes(alloc)?;
        Ok(Pending {
            kept: Kept::Many(extended(bytes, more.bytes())?),
        })
    }
}

fn extended(bytes: Bytes, more: &[u8]) -> Result<Bytes, Memory>
    ensures { IfOk result (λ b. b ≡ bytes ++ more.now) }
{
    let mut all = bytes.into_vec();
    all.extend_from_slice(more)?;
    Ok(Bytes::from_vec(all))
}

/// A character as a text.
pub fn char_text<'p>(alloc: Global, c: char) -> Result<Text<'p>, Memory>
    ensures { IfOk result (λ t. t ≡ encode_utf8 c) }
{
    let mut text = String::new(alloc);
    text.push(c)?;
    Text::own(alloc, Bytes::from_vec(text.into_bytes()))
}
