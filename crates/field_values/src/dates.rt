//! Dates, times and offsets of decimal digits, as XMP writes them.
ghost use Rattle.std.specs.Prelude.{◌≡◌, ◌≤◌, IfSome};
ghost use Rattle.field_values.specs.Dates.{date_exists, date_text, is_sign, number_of, offset_text, time_exists, time_text};

use jiff::civil::{Date, Time};

/// Whether the Gregorian calendar has the day, of the years 1 to 9999. `jiff` decides it, and the
/// definition is the calendar's rule in plain arithmetic.
#[tactic(auto, unfolding(crate::specs::Dates::date_exists))]
pub fn date_exists(year: u16, month: u8, day: u8) -> bool
    ensures { result ≡ date_exists year month day }
{
    if year == 0 || year > 9999 || month > 12 || day > 31 {
        return false;
    }
    Date::new(year as i16, month as i8, day as i8).is_ok()
}

/// Whether a day has the time. No second is a leap second.
#[tactic(auto, unfolding(crate::specs::Dates::time_exists))]
pub fn time_exists(hour: u8, minute: u8, second: u8) -> bool
    ensures { result ≡ time_exists hour minute second }
{
    if hour > 23 || minute > 59 || second > 59 {
        return false;
    }
    Time::new(hour as i8, minute as i8, second as i8, 0).is_ok()
}

/// The number that two digits write.
#[tactic(auto, unfolding(crate::specs::Dates::number_of))]
fn two_digits(digits: &[u8]) -> Option<u8>
    ensures value { result ≡ number_of 2 digits.now }
    ensures small { IfSome result (λ number. number ≤ 99) }
{
    match digits {
        [tens, ones] if tens.is_ascii_digit() && ones.is_ascii_digit() => {
            Some((*tens - b'0') * 10 + (*ones - b'0'))
        }
        _ => None,
    }
}

/// The number that four digits write.
#[tactic(auto, unfolding(crate::specs::Dates::number_of))]
fn four_digits(digits: &[u8]) -> Option<u16>
    ensures value { result ≡ number_of 4 digits.now }
    ensures small { IfSome result (λ number. number ≤ 9999) }
{
    if digits.len() != 4 {
        return None;
    }
    let front = two_digits(&digits[..2])?;
    let back = two_digits(&digits[2..])?;
    Some(u16::from(front) * 100 + u16::from(back))
}

/// `YYYY-MM-DD` of four, two and two digits; None where they are no digits, or no day.
#[tactic(auto, unfolding(crate::specs::Dates::date_text, crate::specs::Dates::number_of))]
pub fn date_text(year: &[u8], month: &[u8], day: &[u8]) -> Option<[u8; 10]>
    ensures { result ≡ date_text year.now month.now day.now }
{
    let exists = date_exists(four_digits(year)?, two_digits(month)?, two_digits(day)?);
    let [y1, y2, y3, y4] = year else { return None };
    let [m1, m2] = month else { return None };
    let [d1, d2] = day else { return None };
    if exists {
        Some([*y1, *y2, *y3, *y4, b'-', *m1, *m2, b'-', *d1, *d2])
    } else {
        None
    }
}

/// `THH:MM:SS` of two, two and two digits; None where they are no digits, or no time.
#[tactic(auto, unfolding(crate::specs::Dates::time_text, crate::specs::Dates::number_of))]
pub fn time_text(hour: &[u8], minute: &[u8], second: &[u8]) -> Option<[u8; 9]>
    ensures { result ≡ time_text hour.now minute.now second.now }
{
    let exists = time_exists(two_digits(hour)?, two_digits(minute)?, two_digits(second)?);
    let [h1, h2] = hour else { return None };
    let [m1, m2] = minute else { return None };
    let [s1, s2] = second else { return None };
    if exists {
        Some([b'T', *h1, *h2, b':', *m1, *m2, b':', *s1, *s2])
    } else {
        None
    }
}

/// `+HH:MM` or `-HH:MM` of a sign and two and two digits; None where they aren't an offset of less
/// than 24 hours.
#[tactic(auto, unfolding(crate::specs::Dates::offset_text, crate::specs::Dates::number_of))]
pub fn offset_text(sign: u8, hours: &[u8], minutes: &[u8]) -> Option<[u8; 6]>
    ensures { result ≡ offset_text sign hours.now minutes.now }
{
    let within = two_digits(hours)? < 24 && two_digits(minutes)? < 60;
    let [h1, h2] = hours else { return None };
    let [m1, m2] = minutes else { return None };
    if within && is_sign(sign) {
        Some([sign, *h1, *h2, b':', *m1, *m2])
    } else {
        None
    }
}

/// Whether the byte is a plus or a minus.
pub(crate) fn is_sign(byte: u8) -> bool
    ensures { result ≡ is_sign byte }
{
    byte == b'+' || byte == b'-'
}
