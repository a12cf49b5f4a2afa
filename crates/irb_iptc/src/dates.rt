//! Dates and times of datasets: CCYYMMDD, and HHMMSS with a sign and HHMM.
ghost use Rattle.std.specs.Prelude.{◌≡◌, IfOk, OnOk};
ghost use Rattle.std.specs.Option.{option_and_then, option_copied, option_map};
ghost use Rattle.irb_iptc.specs.Fields.{date_in, time_in, with_time};

use field_values::{date_text, offset_text, time_text};
use std::alloc::Global;
use xmp_values::{Bytes, Memory};

/// The date of a dataset, with the time of another if that is there and valid. None where the date
/// isn't valid.
pub fn date_and_time(
    alloc: Global,
    date: &[u8],
    time: Option<&[u8]>,
) -> Result<Option<Bytes>, Memory>
    ensures { IfOk result (λ text. text ≡ option_map (with_time (option_and_then time_in (option_copied time.entry))) (date_in date.now)) }
{
    let Some(day) = date_in(date) else {
        return Ok(None);
    };
    let mut text = Vec::from_slice(alloc, day.as_slice())?;
    if let Some(time) = time {
        add_time(&mut text, time)?;
    }
    Ok(Some(Bytes::from_vec(text)))
}

/// The date of eight digits.
fn date_in(bytes: &[u8]) -> Option<[u8; 10]>
    ensures { result ≡ date_in bytes.now }
{
    if bytes.len() != 8 {
        return None;
    }
    date_text(&bytes[..4], &bytes[4..6], &bytes[6..8])
}

/// Puts the time and the offset of eleven characters at the end, if they are valid.
fn add_time(text: &mut Vec<u8>, time: &[u8]) -> Result<(), Memory>
    ensures { OnOk result (text.new.items ≡ with_time (time_in time.now) text.old.items) }
{
    if time.len() != 11 {
        return Ok(());
    }
    if let Some(clock) = time_text(&time[..2], &time[2..4], &time[4..6]) {
        if let Some(offset) = offset_text(time[6], &time[7..9], &time[9..11]) {
            text.extend_from_slice(clock.as_slice())?;
            text.extend_from_slice(offset.as_slice())?;
        }
    }
    Ok(())
}
