//! The zone of a date's text, and whether an XMP date says what another date says.
ghost use Rattle.std.specs.Prelude.{◌≡◌};
ghost use Rattle.std.specs.List.{list_all};
ghost use Rattle.std.specs.Char.{is_ascii_digit};
ghost use Rattle.std.specs.Option.{option_copied};
ghost use Rattle.field_values.specs.Zones.{agrees, date_stays, is_at, is_zone, last, signed, zone_of};

use crate::dates::is_sign;

const UTC: &[u8] = b"+00:00";

/// The zone at the end of a date's text: a sign, two digits, a colon and two digits, or `Z`, which
/// is `+00:00`, as `-00:00` is.
#[tactic(auto, unfolding(crate::specs::Zones::zone_of))]
pub fn zone_of(text: &[u8]) -> Option<&[u8]>
    ensures { option_copied result ≡ zone_of text.now }
{
    let end = last(text, 6);
    if is_zone(end) {
        return Some(signed(end));
    }
    if last(text, 1) == b"Z".as_slice() {
        Some(UTC)
    } else {
        None
    }
}

/// The last bytes of a text, so many or as many as it has.
fn last(text: &[u8], count: usize) -> &[u8]
    ensures { result.now ≡ last count text.now }
{
    &text[text.len().saturating_sub(count)..]
}

/// A zone, of which UTC has one name.
fn signed(zone: &[u8]) -> &[u8]
    ensures { result.now ≡ signed zone.now }
{
    if zone == b"-00:00".as_slice() {
        UTC
    } else {
        zone
    }
}

/// Whether a text is a sign, two digits, a colon and two digits.
fn is_zone(text: &[u8]) -> bool
    ensures { result ≡ is_zone text.now }
{
    text.len() == 6
        && is_sign(text[0])
        && has_digits_alone(&text[1..3])
        && text[3] == b':'
        && has_digits_alone(&text[4..6])
}

/// Whether a text has no byte but decimal digits.
fn has_digits_alone(text: &[u8]) -> bool
    ensures { result ≡ list_all is_ascii_digit text.now }
{
    text.iter().all(|byte| byte.is_ascii_digit())
}

/// Whether an XMP date stays before a preferred date: it begins with that one's first 19 bytes, or
/// as many as there are, and that one has no zone, or the same.
#[tactic(auto, unfolding(crate::specs::Zones::date_stays))]
pub fn date_stays(xmp: &[u8], preferred: &[u8]) -> bool
    ensures { result ≡ date_stays xmp.now preferred.now }
{
    let front = &preferred[..preferred.len().min(19)];
    xmp.starts_with(front) && has_zone_of(xmp, preferred)
}

/// Whether the second date has no zone, or the first has the same.
fn has_zone_of(xmp: &[u8], preferred: &[u8]) -> bool
    ensures { result ≡ agrees (zone_of preferred.now) (zone_of xmp.now) }
{
    match zone_of(preferred) {
        None => true,
        Some(zone) => has_zone(xmp, zone),
    }
}

/// Whether the date has this zone.
fn has_zone(xmp: &[u8], zone: &[u8]) -> bool
    ensures { result ≡ is_at (zone_of xmp.now) zone.now }
{
    match zone_of(xmp) {
        None => false,
        Some(there) => there == zone,
    }
}
