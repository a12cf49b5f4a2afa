//! The choice among the sources, for each property.
ghost use Rattle.std.specs.Prelude.{◌≡◌, IfOk};
ghost use Rattle.std.specs.List.{list_all};
ghost use Rattle.std.specs.Option.{option_and_then, option_copied};
ghost use Rattle.xmp_values.specs.Characters.{is_blank};
ghost use Rattle.irb_iptc.specs.Fields.{fields_of};
ghost use Rattle.xmp_tree.specs.declared.nested.Shape.{out-Shape};
ghost use Rattle.mwg_rules.specs.Sources.{choices_for, differs, has_value, if_chars, is_chars, preferred, says};

use crate::properties::{PROPERTIES, Property};
use exif_fields::ExifFields;
use irb_iptc::{Datasets, iptc_fields};
use std::alloc::Global;
use std::marker::Model;
use xmp_tree::{Shape, Tree, Value, value_named};
use xmp_values::{Bytes, Memory, Sequence, is_blank_byte, is_char_text};

/// What stands beside a file's tree.
#[derive(Drop)]
pub struct Sources {
    pub exif: ExifFields,
    pub iptc: Datasets,
    /// The digest that is stored for the IPTC block.
    pub stored: Option<[u8; 16]>,
    /// The digest of the IPTC block that is there.
    pub block: Option<[u8; 16]>,
}

/// The source that is preferred for a property, with the texts of its value. XMP's own value stays
/// as it is.
#[derive(Drop)]
pub enum Choice {
    Exif(Sequence<Bytes>),
    Xmp,
    Iptc(Sequence<Bytes>),
}

/// The choice for each of `PROPERTIES`, or none where no source has a value.
#[derive(Drop)]
pub struct Choices {
    alloc: Global,
    chosen: Sequence<Option<Choice>>,
}

impl Model for Choices {
    ghost use Rattle.std.specs.Prelude.{List, Option, All};
    ghost use Rattle.mwg_rules.specs.declared.choices.Choice.{Choice};
    ghost use Rattle.mwg_rules.specs.Reconciled.{HasChars};

    ghost Value = { List (Option Choice) };

    ghost view = { λ c. c.chosen };

    ghost invariant = { λ c. All HasChars c.chosen };
}

impl Choices {
    ghost use Rattle.std.specs.Prelude.{◌≡◌};
    ghost use Rattle.std.specs.Option.{option_copied};
    ghost use Rattle.mwg_rules.specs.Reconciled.{HasChars, chosen};

    /// The choice for a property, or none where no source has a value. Its texts are made of XML's
    /// Chars.
    pub fn get(&self, property: Property) -> Option<&Choice>
        ensures value { option_copied result ≡ chosen self.now property }
        ensures chars { HasChars (option_copied result) }
    {
        match self.chosen.get(property.number()) {
            Some(Some(choice)) => Some(choice),
            _ => None,
        }
    }

    pub(crate) fn alloc(&self) -> Global {
        self.alloc
    }
}

/// The choice for each property of a tree, by the table's four rows: Exif's value; IPTC's, where
/// the stored digest differs from the block's; XMP's own; IPTC's.
///
/// # Errors
/// `Memory`.
#[tactic(auto, unfolding(crate::specs::Sources::choices_for))]
pub fn prefer(alloc: Global, s: &Sources, t: &Tree<'_>) -> Result<Choices, Memory>
    ensures { IfOk result (λ c. c ≡ choices_for s.now.exif (differs s.now.stored s.now.block) (fields_of s.now.iptc) t.now.props) }
{
    let changed = differs(&s.stored, &s.block);
    let mut iptc = iptc_fields(alloc, &s.iptc)?;
    let mut chosen = Sequence::new(alloc);
    for property in PROPERTIES {
        let exif = copied(alloc, s.exif.value(property.number()))?;
        let xmp = has_value(value_named(t.props.as_slice(), &property.name()));
        // IPTC's values are in the order of `PROPERTIES`; they are moved, since one may be long.
        let told = iptc.remove(0);
        let choice = preferred(if_chars(exif), changed, xmp, if_chars(told));
        chosen.push(choice)?;
    }
    Ok(Choices { alloc, chosen })
}

/// Whether both digests are there, and differ.
fn differs(stored: &Option<[u8; 16]>, block: &Option<[u8; 16]>) -> bool
    ensures { result ≡ differs stored.now block.now }
{
    match (stored, block) {
        (Some(stored), Some(block)) => stored.as_slice() != block.as_slice(),
        _ => false,
    }
}

/// Whether a value is there that says something.
fn has_value(value: Option<&Value<'_>>) -> bool
    ensures { result ≡ has_value (option_copied value.entry) }
{
    match value {
        Some(value) => says(&value.shape),
        None => false,
    }
}

/// Whether a shape says something: it is no blank text, and no array without items.
fn says(shape: &Shape<'_>) -> bool
    ensures { result ≡ says (out-Shape shape.now) }
{
    match shape {
        Shape::Simple(text) => !is_blank(text.bytes()),
        Shape::Array(_, items) => items.len() != 0,
        _ => true,
    }
}

/// Whether a text is white space alone.
fn is_blank(text: &[u8]) -> bool
    ensures { result ≡ list_all is_blank text.now }
{
    text.iter().all(|byte| is_blank_byte(*byte))
}

/// A value, if a tree can have it.
fn if_chars(value: Option<Sequence<Bytes>>) -> Option<Sequence<Bytes>>
    ensures { result ≡ option_and_then if_chars value }
{
    match value {
        Some(texts) => {
            if are_chars(texts.as_slice()) {
                Some(texts)
            } else {
                None
            }
        }
        None => None,
    }
}

/// Whether all texts are made of XML's Chars.
fn are_chars(texts: &[Bytes]) -> bool
    ensures { result ≡ list_all is_chars texts.now }
{
    texts.iter().all(|text| is_chars(text.as_slice()))
}

/// Whether a text is made of XML's Chars.
fn is_chars(bytes: &[u8]) -> bool
    ensures { result ≡ is_chars bytes.now }
{
    is_char_text(bytes)
}

/// The first row that holds.
#[tactic(auto, unfolding(crate::specs::Sources::preferred))]
fn preferred(
    exif: Option<Sequence<Bytes>>,
    changed: bool,
    xmp: bool,
    iptc: Option<Sequence<Bytes>>,
) -> Option<Choice>
    ensures { result ≡ preferred exif changed xmp iptc }
{
    if let Some(texts) = exif {
        return Some(Choice::Exif(texts));
    }
    match iptc {
        Some(texts) => {
            if xmp && !changed {
                Some(Choice::Xmp)
            } else {
                Some(Choice::Iptc(texts))
            }
        }
        None if xmp => Some(Choice::Xmp),
        None => None,
    }
}

/// A copy of a value.
fn copied(alloc: Global, value: Option<&[Bytes]>) -> Result<Option<Sequence<Bytes>>, Memory>
    ensures { IfOk result (λ copy. copy ≡ option_copied value.entry) }
{
    match value {
        Some(texts) => Ok(Some(copy_texts(alloc, texts)?)),
        None => Ok(None),
    }
}

/// Copies of texts.
fn copy_texts(alloc: Global, texts: &[Bytes]) -> Result<Sequence<Bytes>, Memory>
    ensures { IfOk result (λ copies. copies ≡ texts.now) }
{
    let mut copies = Sequence::new(alloc);
    for text in texts {
        copies.push(Bytes::from_slice(alloc, text.as_slice())?)?;
    }
    Ok(copies)
}
