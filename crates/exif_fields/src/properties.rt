//! The values of the twelve properties.
ghost use Rattle.std.specs.Prelude.{◌≡◌, IfOk, slice_get};
ghost use Rattle.std.specs.Option.{option_copied, option_flatten};
ghost use Rattle.exif_fields.specs.Fields.{fields_of, text_at_place};

use crate::dates::date_in;
use crate::raw::RawExif;
use crate::texts::{copyright, creators, one_text, text_in};
use std::alloc::Global;
use std::marker::Model;
use xmp_values::{Bytes, Memory, Sequence};

/// The values that Exif gives twelve properties of XMP: dc:description, dc:rights, dc:creator,
/// dc:subject, photoshop:DateCreated, xmp:CreateDate, xmp:ModifyDate, photoshop:City, State and
/// Country, Iptc4xmpCore:CountryCode and Location. Of each the texts, or none.
#[derive(Drop)]
pub struct ExifFields {
    values: Sequence<Option<Sequence<Bytes>>>,
}

impl Model for ExifFields {
    ghost use Rattle.std.specs.Prelude.{List, ℕ, Option};

    ghost Value = { List (Option (List (List ℕ))) };

    ghost view = { λ f. f.values };
}

impl ExifFields {
    /// The texts of the value of a property, counted from 0; None exactly where it has none.
    pub fn value(&self, property: usize) -> Option<&[Bytes]>
        ensures { option_copied result ≡ option_flatten (slice_get self.now property) }
    {
        match self.values.get(property) {
            Some(Some(texts)) => Some(texts.as_slice()),
            _ => None,
        }
    }

    /// A text of the value of a property, both counted from 0; None exactly where there is none.
    pub fn text(&self, property: usize, i: usize) -> Option<&[u8]>
        ensures { option_copied result ≡ text_at_place (slice_get self.now property) i }
    {
        match self.values.get(property) {
            Some(Some(texts)) => match texts.get(i) {
                Some(text) => Some(text.as_slice()),
                None => None,
            },
            _ => None,
        }
    }
}

/// The values of the properties, by those of the tags.
///
/// # Errors
/// `Memory`.
#[tactic(auto, unfolding(crate::specs::Fields::fields_of))]
pub fn fields(alloc: Global, raw: &RawExif) -> Result<ExifFields, Memory>
    ensures { IfOk result (λ fields. fields ≡ fields_of raw.now) }
{
    let description = one_text(alloc, text_in(alloc, raw, 0x010e)?)?;
    let rights = one_text(alloc, copyright(alloc, raw)?)?;
    let creator = creators(alloc, raw)?;
    let original = one_text(alloc, date_in(alloc, raw, 0x9003, 0x9291, 0x9011)?)?;
    let digitized = one_text(alloc, date_in(alloc, raw, 0x9004, 0x9292, 0x9012)?)?;
    let modified = one_text(alloc, date_in(alloc, raw, 0x0132, 0x9290, 0x9010)?)?;
    let values = Vec::from_array(
        alloc,
        [
            description,
            rights,
            creator,
            None,
            original,
            digitized,
            modified,
            None,
            None,
            None,
            None,
            None,
        ],
    )?;
    Ok(ExifFields {
        values: Sequence::from_vec(values),
    })
}
