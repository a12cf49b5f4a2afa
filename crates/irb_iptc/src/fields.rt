//! The values that IPTC gives properties of XMP.
ghost use Rattle.std.specs.Prelude.{◌≡◌, ◌<◌, ◌++◌, length, slice_get, IfOk, OnOk};
ghost use Rattle.std.specs.Option.{option_and_then, option_copied, option_to_list};
ghost use Rattle.field_values.specs.FieldTexts.{field_text};
ghost use Rattle.irb_iptc.specs.Fields.{bytes_for, date_of, fields_of, first_of, one, some_of, text_of, texts_of};

use crate::datasets::Datasets;
use crate::dates::date_and_time;
use crate::repeats::distinct;
use field_values::field_text;
use std::alloc::Global;
use xmp_values::{Bytes, Memory, Sequence};

/// The record of what a picture shows, the application record.
const RECORD: u8 = 2;

/// The values of the twelve properties, in the order of `exif_fields`: of each the texts, or none.
/// A repeated keyword counts once.
///
/// # Errors
/// `Memory`.
#[tactic(auto, unfolding(crate::specs::Fields::fields_of))]
pub fn iptc_fields(
    alloc: Global,
    datasets: &Datasets,
) -> Result<Sequence<Option<Sequence<Bytes>>>, Memory>
    ensures { IfOk result (λ fields. fields ≡ fields_of datasets.now) }
{
    let description = one(alloc, text_of(alloc, datasets, 120)?)?;
    let rights = one(alloc, text_of(alloc, datasets, 116)?)?;
    let creators = some_of(texts_of(alloc, datasets, 80)?);
    let subjects = some_of(distinct(alloc, texts_of(alloc, datasets, 25)?)?);
    let created = one(alloc, date_of(alloc, datasets, 55, 60)?)?;
    let digitized = one(alloc, date_of(alloc, datasets, 62, 63)?)?;
    let city = one(alloc, text_of(alloc, datasets, 90)?)?;
    let state = one(alloc, text_of(alloc, datasets, 95)?)?;
    let country = one(alloc, text_of(alloc, datasets, 101)?)?;
    let code = one(alloc, text_of(alloc, datasets, 100)?)?;
    let location = one(alloc, text_of(alloc, datasets, 92)?)?;
    let values = Vec::from_array(
        alloc,
        [
            description,
            rights,
            creators,
            subjects,
            created,
            digitized,
            None,
            city,
            state,
            country,
            code,
            location,
        ],
    )?;
    Ok(Sequence::from_vec(values))
}

/// The bytes of dataset `i`, if it has this number in the record.
fn bytes_for(datasets: &Datasets, i: usize, number: u8) -> Option<&[u8]>
    requires { i < length datasets.now }
    ensures { option_copied result ≡ option_and_then (bytes_for number) (slice_get datasets.now i) }
{
    let (record_number, dataset_number) = datasets.number_at(i);
    if record_number == RECORD && dataset_number == number {
        Some(datasets.bytes_at(i))
    } else {
        None
    }
}

/// The text of dataset `i`, if it has this number in the record.
fn text_for(
    alloc: Global,
    datasets: &Datasets,
    i: usize,
    number: u8,
) -> Result<Option<Bytes>, Memory>
    requires { i < length datasets.now }
    ensures { IfOk result (λ text. text ≡ option_and_then field_text (option_and_then (bytes_for number) (slice_get datasets.now i))) }
{
    match bytes_for(datasets, i, number) {
        Some(bytes) => field_text(alloc, bytes),
        None => Ok(None),
    }
}

/// The bytes of the first dataset of a number.
fn first_of(datasets: &Datasets, number: u8) -> Option<&[u8]>
    ensures { option_copied result ≡ first_of number datasets.now }
{
    for i in 0..datasets.len() {
        if let Some(bytes) = bytes_for(datasets, i, number) {
            return Some(bytes);
        }
    }
    None
}

/// The text of the first dataset of a number.
fn text_of(alloc: Global, datasets: &Datasets, number: u8) -> Result<Option<Bytes>, Memory>
    ensures { IfOk result (λ text. text ≡ text_of number datasets.now) }
{
    match first_of(datasets, number) {
        Some(bytes) => field_text(alloc, bytes),
        None => Ok(None),
    }
}

/// The texts of all datasets of a number.
fn texts_of(alloc: Global, datasets: &Datasets, number: u8) -> Result<Sequence<Bytes>, Memory>
    ensures { IfOk result (λ texts. texts ≡ texts_of number datasets.now) }
{
    let mut texts = Sequence::new(alloc);
    for i in 0..datasets.len() {
        let text = text_for(alloc, datasets, i, number)?;
        push_some(&mut texts, text)?;
    }
    Ok(texts)
}

/// Puts a text at the end, if there is one.
fn push_some(texts: &mut Sequence<Bytes>, text: Option<Bytes>) -> Result<(), Memory>
    ensures { OnOk result (texts.new ≡ texts.old ++ option_to_list text) }
{
    match text {
        Some(text) => texts.push(text),
        None => Ok(()),
    }
}

/// The date that two datasets tell.
fn date_of(alloc: Global, datasets: &Datasets, date: u8, time: u8) -> Result<Option<Bytes>, Memory>
    ensures { IfOk result (λ text. text ≡ date_of date time datasets.now) }
{
    match first_of(datasets, date) {
        Some(bytes) => date_and_time(alloc, bytes, first_of(datasets, time)),
        None => Ok(None),
    }
}

/// The texts, if there are any.
fn some_of(texts: Sequence<Bytes>) -> Option<Sequence<Bytes>>
    ensures { result ≡ some_of texts }
{
    if texts.len() == 0 { None } else { Some(texts) }
}

/// A text as a list of one.
fn one(alloc: Global, text: Option<Bytes>) -> Result<Option<Sequence<Bytes>>, Memory>
    ensures { IfOk result (λ texts. texts ≡ one text) }
{
    let Some(text) = text else {
        return Ok(None);
    };
    let mut texts = Sequence::new(alloc);
    texts.push(text)?;
    Ok(Some(texts))
}
