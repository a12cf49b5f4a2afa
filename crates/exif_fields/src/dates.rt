//! The dates, each of three tags.
ghost use Rattle.std.specs.Prelude.{◌≡◌, ◌≤◌, ◌++◌, ◌∷◌, [], if◌then◌else◌, length, IsTrue, IfOk, OnOk};
ghost use Rattle.std.specs.Char.{is_ascii_digit};
ghost use Rattle.std.specs.List.{list_all};
ghost use Rattle.exif_fields.specs.Fields.{date_by, date_in, date_time, date_time_of, fraction_of, is_date_time, is_fraction, joined, offset_in, offset_of, or_nothing};

use crate::raw::RawExif;
use crate::texts::{text_in, without_last_spaces};
use field_values::{date_text, offset_text, time_text};
use std::alloc::Global;
use xmp_values::{Bytes, Memory};

/// The date of a tag, with the subseconds and the offset that two others tell.
#[tactic(auto, unfolding(crate::specs::Fields::date_in))]
pub(crate) fn date_in(
    alloc: Global,
    raw: &RawExif,
    date: u16,
    subsecond: u16,
    offset: u16,
) -> Result<Option<Bytes>, Memory>
    ensures { IfOk result (λ text. text ≡ date_in raw.now date subsecond offset) }
{
    let date = text_in(alloc, raw, date)?;
    let subsecond = text_in(alloc, raw, subsecond)?;
    let offset = text_in(alloc, raw, offset)?;
    date_by(alloc, &date, &subsecond, &offset)
}

/// The date of three texts.
#[tactic(auto, unfolding(crate::specs::Fields::date_by))]
fn date_by(
    alloc: Global,
    date: &Option<Bytes>,
    subsecond: &Option<Bytes>,
    offset: &Option<Bytes>,
) -> Result<Option<Bytes>, Memory>
    ensures { IfOk result (λ text. text ≡ date_by date.now subsecond.now offset.now) }
{
    match date_time_of(alloc, date)? {
        Some(date) => {
            let mut written = date.into_vec();
            add_fraction(&mut written, subsecond)?;
            add_offset(&mut written, offset)?;
            Ok(Some(Bytes::from_vec(written)))
        }
        None => Ok(None),
    }
}

/// The date and the time of a text, if it tells them.
fn date_time_of(alloc: Global, text: &Option<Bytes>) -> Result<Option<Bytes>, Memory>
    ensures { IfOk result (λ written. written ≡ date_time_of text.now) }
{
    match text {
        Some(text) => date_time(alloc, text.as_slice()),
        None => Ok(None),
    }
}

/// The date and the time of `YYYY:MM:DD HH:MM:SS`, where they exist.
#[tactic(auto, unfolding(crate::specs::Fields::date_time))]
fn date_time(alloc: Global, text: &[u8]) -> Result<Option<Bytes>, Memory>
    ensures { IfOk result (λ written. written ≡ date_time text.now) }
{
    if !is_date_time(text) {
        return Ok(None);
    }
    let date = date_text(&text[0..4], &text[5..7], &text[8..10]);
    let time = time_text(&text[11..13], &text[14..16], &text[17..19]);
    joined(alloc, date, time)
}

/// Whether a text has the length and the punctuation of a date and a time.
fn is_date_time(text: &[u8]) -> bool
    ensures is { result ≡ is_date_time text.now }
    ensures size { IsTrue result → 19 ≤ length text.now }
{
    text.len() == 19
        && text[4] == b':'
        && text[7] == b':'
        && text[10] == b' '
        && text[13] == b':'
        && text[16] == b':'
}

/// A date and a time, one after the other, where there are both.
fn joined(
    alloc: Global,
    date: Option<[u8; 10]>,
    time: Option<[u8; 9]>,
) -> Result<Option<Bytes>, Memory>
    ensures { IfOk result (λ written. written ≡ joined date time) }
{
    match (date, time) {
        (Some(date), Some(time)) => {
            let mut written = Vec::from_slice(alloc, date.as_slice())?;
            written.extend_from_slice(time.as_slice())?;
            Ok(Some(Bytes::from_vec(written)))
        }
        _ => Ok(None),
    }
}

/// Puts a point and the digits of a subsecond text at the end, if it is one.
fn add_fraction(written: &mut Vec<u8>, text: &Option<Bytes>) -> Result<(), Memory>
    ensures { OnOk result (written.new.items ≡ written.old.items ++ fraction_of text.now) }
{
    match text {
        Some(text) => add_digits(written, without_last_spaces(text.as_slice())),
        None => Ok(()),
    }
}

/// Puts a point and 1 to 9 digits at the end; nothing for another text.
fn add_digits(written: &mut Vec<u8>, digits: &[u8]) -> Result<(), Memory>
    ensures { OnOk result (written.new.items ≡ written.old.items ++ (if is_fraction digits.now then 46 ∷ digits.now else [])) }
{
    if is_fraction(digits) {
        written.push(b'.')?;
        written.extend_from_slice(digits)?;
    }
    Ok(())
}

/// Whether a text is 1 to 9 digits.
fn is_fraction(digits: &[u8]) -> bool
    ensures { result ≡ is_fraction digits.now }
{
    1 <= digits.len() && digits.len() <= 9 && has_digits_alone(digits)
}

/// Whether a text has no byte but decimal digits.
fn has_digits_alone(text: &[u8]) -> bool
    ensures { result ≡ list_all is_ascii_digit text.now }
{
    text.iter().all(|byte| byte.is_ascii_digit())
}

/// Puts an offset at the end, if the text is one.
fn add_offset(written: &mut Vec<u8>, text: &Option<Bytes>) -> Result<(), Memory>
    ensures { OnOk result (written.new.items ≡ written.old.items ++ offset_of text.now) }
{
    match text {
        Some(text) => add_zone(written, text.as_slice()),
        None => Ok(()),
    }
}

/// Puts a sign, two digits, a colon and two digits at the end, where they are an offset.
#[tactic(auto, unfolding(crate::specs::Fields::offset_in))]
fn add_zone(written: &mut Vec<u8>, text: &[u8]) -> Result<(), Memory>
    ensures { OnOk result (written.new.items ≡ written.old.items ++ offset_in text.now) }
{
    if text.len() == 6 && text[3] == b':' {
        add_if_some(written, offset_text(text[0], &text[1..3], &text[4..6]))
    } else {
        Ok(())
    }
}

/// Puts an offset at the end, if there is one.
fn add_if_some(written: &mut Vec<u8>, offset: Option<[u8; 6]>) -> Result<(), Memory>
    ensures { OnOk result (written.new.items ≡ written.old.items ++ or_nothing offset) }
{
    if let Some(offset) = offset {
        written.extend_from_slice(offset.as_slice())?;
    }
    Ok(())
}
