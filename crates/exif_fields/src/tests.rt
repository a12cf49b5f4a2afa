//! Blocks by their bytes, and values tag by tag.
use crate::{ExifFields, ExifStop, RawExif, fields, raw_of};
use std::alloc::Global;
use std::test::Fail;
use xmp_values::{Memory, Rule};

/// A block with DateTimeOriginal in its Exif directory.
const DATED: &[u8] = b"MM\0*\0\0\0\x08\0\x01\x87\x69\0\x04\0\0\0\x01\0\0\0\x1a\0\0\0\0\
\0\x01\x90\x03\0\x02\0\0\0\x14\0\0\0\x2c\0\0\0\02021:03:04 05:06:07\0";

/// The same in the other byte order, with a description that stands in its entry, and a second one.
const DESCRIBED: &[u8] = b"II*\0\x08\0\0\0\x02\0\x0e\x01\x02\0\x04\0\0\0abc\0\
\x0e\x01\x02\0\x04\0\0\0xyz\0\0\0\0\0";

/// A description of another type, and then one that is a text.
const MISTYPED: &[u8] = b"II*\0\x08\0\0\0\x02\0\x0e\x01\x07\0\x04\0\0\0abc\0\
\x0e\x01\x02\0\x04\0\0\0xyz\0\0\0\0\0";

/// Blocks, and their first faults.
const FAULTS: [(&[u8], Rule, u64); 7] = [
    (b"MM\0\x2b\0\0\0\0", Rule::ExifHeader, 0),
    (b"MM\0*\0\0\0", Rule::ExifHeader, 0),
    (b"MM\0*\0\0\0\0", Rule::ExifDirectory, 0),
    (b"MM\0*\0\0\0\x08\0\0\0\0\0", Rule::ExifDirectory, 8),
    (
        b"MM\0*\0\0\0\x08\0\x01\x87\x69\0\x04\0\0\0\x01\0\0\0\x1a\0\0\0\0",
        Rule::ExifDirectory,
        26,
    ),
    (
        b"MM\0*\0\0\0\x08\0\x01\x01\x0e\0\x02\0\0\0\x05\0\0\0\x16\0\0\0\0",
        Rule::ExifValue,
        10,
    ),
    (
        b"II*\0\x08\0\0\0\x02\0\x0e\x01\x02\0\x04\0\0\0abc\0\x0e\x01\x02\0\x05\0\0\0\xff\0\0\0\0\0\0\0",
        Rule::ExifValue,
        22,
    ),
];

/// Texts of DateTimeOriginal, its subseconds and its offset, and the date.
const DATES: [(&str, &str, &str, &str); 13] = [
    ("2021:03:04 05:06:07", "", "", "2021-03-04T05:06:07"),
    (
        "2021:03:04 05:06:07\0rest",
        "25  ",
        "+02:00",
        "2021-03-04T05:06:07.25+02:00",
    ),
    (
        "2021:03:04 05:06:07",
        "123456789",
        "-23:59",
        "2021-03-04T05:06:07.123456789-23:59",
    ),
    (
        "2021:03:04 05:06:07",
        "1234567890",
        "      ",
        "2021-03-04T05:06:07",
    ),
    ("2021:03:04 05:06:07", " 5", "+24:00", "2021-03-04T05:06:07"),
    (
        "2021:03:04 05:06:07",
        "5\05",
        "+01:60",
        "2021-03-04T05:06:07.5",
    ),
    ("2000:02:29 23:59:59", "", "", "2000-02-29T23:59:59"),
    ("1900:02:29 00:00:00", "", "", ""),
    ("0000:01:01 00:00:00", "", "", ""),
    ("2021:03:04 05:06:60", "", "", ""),
    ("2021-03-04 05:06:07", "", "", ""),
    ("    :  :     :  :  ", "", "", ""),
    (" 2021:03:04 05:06:07", "", "", ""),
];

/// The tags that are read.
const TAGS: [u16; 12] = [
    0x010e, 0x0132, 0x013b, 0x8298, 0x9003, 0x9004, 0x9010, 0x9011, 0x9012, 0x9290, 0x9291, 0x9292,
];

/// The text of a property's value, or nothing.
fn text(fields: &ExifFields, property: usize, i: usize) -> &[u8] {
    fields.text(property, i).unwrap_or(b"")
}

/// The fields of a block.
fn fields_of(alloc: Global, block: &[u8]) -> Result<ExifFields, ExifStop> {
    let raw = raw_of(alloc, block)?;
    Ok(fields(alloc, &raw)?)
}

/// The fields of one tag alone.
fn fields_with(alloc: Global, tag: u16, value: &[u8]) -> Result<ExifFields, Memory> {
    let mut raw = RawExif::new(alloc);
    raw.take(tag, value)?;
    fields(alloc, &raw)
}

/// The fields of the three tags of a date.
fn dated(alloc: Global, date: &str, subsecond: &str, offset: &str) -> Result<ExifFields, Memory> {
    let mut raw = RawExif::new(alloc);
    raw.take(0x9003, date.as_bytes())?;
    raw.take(0x9291, subsecond.as_bytes())?;
    raw.take(0x9011, offset.as_bytes())?;
    fields(alloc, &raw)
}

#[test]
fn a_block_has_its_values(rt: HostRuntime) -> Result<(), Fail> {
    let dated = fields_of(rt.alloc(), DATED)?;
    assert_eq!(rt; text(&dated, 4, 0), b"2021-03-04T05:06:07".as_slice());
    let described = fields_of(rt.alloc(), DESCRIBED)?;
    assert_eq!(rt; text(&described, 0, 0), b"abc".as_slice());
    let mistyped = fields_of(rt.alloc(), MISTYPED)?;
    assert!(rt; mistyped.text(0, 0).is_none());
    Ok(())
}

#[test]
fn a_block_has_one_first_fault(rt: HostRuntime) {
    for (block, rule, place) in FAULTS {
        let stop = raw_of(rt.alloc(), block).err();
        assert!(rt; stop == Some(ExifStop::Fault(rule, place)));
    }
}

#[test]
fn dates_are_of_three_tags(rt: HostRuntime) -> Result<(), Fail> {
    for (date, subsecond, offset, wanted) in DATES {
        let fields = dated(rt.alloc(), date, subsecond, offset)?;
        assert_eq!(rt; text(&fields, 4, 0), wanted.as_bytes());
    }
    Ok(())
}

#[test]
fn artists_and_owners_are_parted(rt: HostRuntime) -> Result<(), Fail> {
    let artists = fields_with(rt.alloc(), 0x013b, b" Ann ;; Bo;\0Cy")?;
    assert_eq!(rt; text(&artists, 2, 0), b"Ann".as_slice());
    assert_eq!(rt; text(&artists, 2, 1), b"Bo".as_slice());
    assert!(rt; artists.text(2, 2).is_none());
    let editor = fields_with(rt.alloc(), 0x8298, b" \0Ed\0")?;
    assert_eq!(rt; text(&editor, 1, 0), b"Ed".as_slice());
    let owner = fields_with(rt.alloc(), 0x8298, b"Ow\0Ed\0")?;
    assert_eq!(rt; text(&owner, 1, 0), b"Ow".as_slice());
    Ok(())
}

#[test]
fn a_first_entry_of_another_type_has_no_value(rt: HostRuntime) -> Result<(), Fail> {
    for tag in TAGS {
        let mut raw = RawExif::new(rt.alloc());
        raw.pass(tag)?;
        raw.take(tag, b"2021:03:04 05:06:07")?;
        assert!(rt; raw.value(tag).is_none());
    }
    Ok(())
}
