//! The values of the tags that are read, the first of each tag.
ghost use Rattle.std.specs.Prelude.{◌≡◌, ◌==◌, ◌&&◌, not, [], Some, None, OnOk, OnErr};
ghost use Rattle.std.specs.List.{find};
ghost use Rattle.std.specs.Option.{option_copied};
ghost use Rattle.exif_fields.specs.Tags.{is_exif_tag, is_first_tag, is_tag};
ghost use Rattle.exif_fields.specs.Values.{has_tag, value_in, with_value};

use std::alloc::Global;
use std::marker::Model;
use xmp_values::{Bytes, Memory, Sequence};

/// A tag that was met, with the bytes of its first entry; None where that is no text.
#[derive(Drop)]
pub struct Met {
    tag: u16,
    value: Option<Bytes>,
}

/// The values of the tags that are read, as they stand in a block or a file.
#[derive(Drop)]
pub struct RawExif {
    alloc: Global,
    met: Sequence<Met>,
}

impl Model for RawExif {
    ghost use Rattle.std.specs.Prelude.{List};
    ghost use Rattle.exif_fields.specs.declared.raw.Met.{Met};

    ghost Value = { List Met };

    ghost view = { λ r. r.met };
}

impl RawExif {
    /// No values, which takes no memory.
    pub fn new(alloc: Global) -> RawExif
        ensures { result ≡ [] }
    {
        RawExif {
            alloc,
            met: Sequence::new(alloc),
        }
    }

    /// Keeps a copy of a value of type text. A second value of a tag, and one of a tag that isn't
    /// read, change nothing.
    ///
    /// # Errors
    /// `Memory`; then nothing has changed.
    #[tactic(auto, unfolding(crate::specs::Values::with_value))]
    pub fn take(&mut self, tag: u16, value: &[u8]) -> Result<(), Memory>
        ensures ok { OnOk result (self.new ≡ with_value self.old tag (Some value.now)) }
        ensures err { OnErr result (self.new ≡ self.old) }
    {
        if self.is_new(tag) {
            let value = Some(Bytes::from_slice(self.alloc, value)?);
            self.met.push(Met { tag, value })?;
        }
        Ok(())
    }

    /// Keeps that the first entry of a tag is no text, so that the tag has no value.
    ///
    /// # Errors
    /// `Memory`; then nothing has changed.
    #[tactic(auto, unfolding(crate::specs::Values::with_value))]
    pub fn pass(&mut self, tag: u16) -> Result<(), Memory>
        ensures ok { OnOk result (self.new ≡ with_value self.old tag None) }
        ensures err { OnErr result (self.new ≡ self.old) }
    {
        if self.is_new(tag) {
            self.met.push(Met { tag, value: None })?;
        }
        Ok(())
    }

    /// The bytes of a tag's value, if it has one.
    #[tactic(auto, unfolding(crate::specs::Values::value_in))]
    pub fn value(&self, tag: u16) -> Option<&[u8]>
        ensures { option_copied result ≡ value_in self.now tag }
    {
        match self.met(tag) {
            Some(
                Met {
                    value: Some(value),
                    ..
                },
            ) => Some(value.as_slice()),
            _ => None,
        }
    }

    /// What was met of the tag.
    fn met(&self, tag: u16) -> Option<&Met>
        ensures { option_copied result ≡ find (λ m. m.tag == tag) self.now }
    {
        self.met.as_slice().iter().find(|met| met.tag == tag)
    }

    /// Whether the tag was met.
    fn has_tag(&self, tag: u16) -> bool
        ensures { result ≡ has_tag self.now tag }
    {
        self.met.as_slice().iter().any(|met| met.tag == tag)
    }

    /// Whether the tag is read, and wasn't met.
    fn is_new(&self, tag: u16) -> bool
        ensures { result ≡ (is_tag tag && not (has_tag self.now tag)) }
    {
        is_tag(tag) && !self.has_tag(tag)
    }
}

/// Whether the tag is read in the first directory: ImageDescription, DateTime, Artist, Copyright.
pub(crate) fn is_first_tag(tag: u16) -> bool
    ensures { result ≡ is_first_tag tag }
{
    matches!(tag, 0x010e | 0x0132 | 0x013b | 0x8298)
}

/// Whether the tag is read in the Exif directory: DateTimeOriginal, DateTimeDigitized, and the
/// offsets and subseconds of all three dates.
pub(crate) fn is_exif_tag(tag: u16) -> bool
    ensures { result ≡ is_exif_tag tag }
{
    matches!(
        tag,
        0x9003 | 0x9004 | 0x9010 | 0x9011 | 0x9012 | 0x9290 | 0x9291 | 0x9292
    )
}

/// Whether the tag is read.
#[tactic(auto, unfolding(crate::specs::Tags::is_tag))]
fn is_tag(tag: u16) -> bool
    ensures { result ≡ is_tag tag }
{
    is_first_tag(tag) || is_exif_tag(tag)
}
