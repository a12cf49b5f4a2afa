//! Days, texts and zones in tables.
use crate::{date_exists, date_stays, date_text, field_text, offset_text, time_text};
use std::alloc::Global;
use std::test::Fail;
use xmp_values::{Bytes, Memory};

/// Days, and whether the calendar has them.
const DAYS: [(u16, u8, u8, bool); 14] = [
    (2000, 2, 29, true),
    (1900, 2, 29, false),
    (2004, 2, 29, true),
    (2001, 2, 29, false),
    (2001, 2, 28, true),
    (0, 1, 1, false),
    (1, 1, 1, true),
    (9999, 12, 31, true),
    (10_000, 1, 1, false),
    (2021, 4, 31, false),
    (2021, 12, 31, true),
    (2021, 13, 1, false),
    (2021, 0, 1, false),
    (2021, 1, 0, false),
];

/// Bytes of a field, and its text.
const TEXTS: [(&[u8], Option<&str>); 9] = [
    (b"cat", Some("cat")),
    (b"caf\xc3\xa9", Some("caf\u{e9}")),
    (b"caf\xe9", Some("caf\u{e9}")),
    (b"\xc3\xa9\xff", Some("\u{c3}\u{a9}\u{ff}")),
    (b"a\x01b\0c", Some("abc")),
    (b"\xef\xbf\xbe ", None),
    (b" \t\r\n", None),
    (b"\x01", None),
    (b"", None),
];

/// An XMP date, a preferred one, and whether the first stays.
const ZONES: [(&[u8], &[u8], bool); 9] = [
    (b"2021-03-04T05:06:07+01:00", b"2021-03-04T05:06:07", true),
    (
        b"2021-03-04T05:06:07+01:00",
        b"2021-03-04T05:06:07+02:00",
        false,
    ),
    (
        b"2021-03-04T05:06:07+01:00",
        b"2021-03-04T05:06:07.5+01:00",
        true,
    ),
    (b"2021-03-04T05:06:07Z", b"2021-03-04T05:06:07+00:00", true),
    (b"2021-03-04T05:06:07Z", b"2021-03-04T05:06:07-00:00", true),
    (b"2021-03-04T05:06:07", b"2021-03-04T05:06:07+00:00", false),
    (b"2021-03-04T05:06:08", b"2021-03-04T05:06:07", false),
    (b"2021-03-04", b"2021-03-04T05:06:07", false),
    (b"2021-03-04T05:06:07", b"2021-03-04", true),
];

/// The text of a field, or nothing.
fn text_of(alloc: Global, bytes: &[u8]) -> Result<Bytes, Memory> {
    match field_text(alloc, bytes)? {
        Some(text) => Ok(text),
        None => Ok(Bytes::new(alloc)),
    }
}

#[test]
fn the_calendar_has_its_days(rt: HostRuntime) {
    for (year, month, day, exists) in DAYS {
        assert_eq!(rt; date_exists(year, month, day), exists);
    }
}

#[test]
fn fields_are_texts(rt: HostRuntime) -> Result<(), Fail> {
    for (bytes, wanted) in TEXTS {
        let text = text_of(rt.alloc(), bytes)?;
        assert_eq!(rt; text.as_slice(), wanted.unwrap_or("").as_bytes());
    }
    Ok(())
}

#[test]
fn dates_are_written(rt: HostRuntime) {
    assert_eq!(rt; date_text(b"2021", b"03", b"04"), Some(*b"2021-03-04"));
    assert_eq!(rt; date_text(b"2021", b"02", b"29"), None);
    assert_eq!(rt; date_text(b"0000", b"01", b"01"), None);
    assert_eq!(rt; date_text(b"2021", b" 3", b"04"), None);
    assert_eq!(rt; time_text(b"23", b"59", b"59"), Some(*b"T23:59:59"));
    assert_eq!(rt; time_text(b"23", b"59", b"60"), None);
    assert_eq!(rt; time_text(b"24", b"00", b"00"), None);
    assert_eq!(rt; offset_text(b'-', b"23", b"59"), Some(*b"-23:59"));
    assert_eq!(rt; offset_text(b'+', b"24", b"00"), None);
    assert_eq!(rt; offset_text(b' ', b"01", b"00"), None);
}

#[test]
fn dates_with_another_zone_are_replaced(rt: HostRuntime) {
    for (xmp, preferred, stays) in ZONES {
        assert_eq!(rt; date_stays(xmp, preferred), stays);
    }
}
