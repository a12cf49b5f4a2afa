//! The values of properties, by the datasets of a block.
use crate::{Datasets, iptc_fields};
use std::alloc::Global;
use std::test::Fail;
use xmp_values::{Bytes, Memory, Sequence};

/// Description, Copyright in Latin-1, two by-lines, four keywords of which one is blank and one is
/// repeated, a date and its time, a day that isn't, two cities, and a state whose first is blank.
const BLOCK: &[u8] =
    b"\x1c\x02\x78\0\x03Sea\x1c\x02\x74\0\x05\xa9 Ann\x1c\x02\x50\0\x03Ann\x1c\x02\x50\0\x02Bo\
\x1c\x02\x19\0\x03cat\x1c\x02\x19\0\x01 \x1c\x02\x19\0\x03sea\x1c\x02\x19\0\x03cat\
\x1c\x02\x37\0\x0820210304\x1c\x02\x3c\0\x0b050607+0100\x1c\x02\x3e\0\x0820210229\x1c\x02\x3f\0\x0b050607+0100\
\x1c\x02\x5a\0\x04Oslo\x1c\x02\x5a\0\x04Rome\x1c\x02\x5f\0\x02 \t\x1c\x02\x5f\0\x01X\x1c\x01\x65\0\x01N";

/// Texts of the block's properties, by property and place; nothing where there is none.
const TEXTS: [(usize, usize, &[u8]); 15] = [
    (0, 0, b"Sea"),
    (1, 0, b"\xc2\xa9 Ann"),
    (2, 0, b"Ann"),
    (2, 1, b"Bo"),
    (2, 2, b""),
    (3, 0, b"cat"),
    (3, 1, b"sea"),
    (3, 2, b""),
    (4, 0, b"2021-03-04T05:06:07+01:00"),
    (5, 0, b""),
    (6, 0, b""),
    (7, 0, b"Oslo"),
    (8, 0, b""),
    (9, 0, b""),
    (11, 0, b""),
];

/// Dates and times of datasets, and what they tell.
const DATES: [(&[u8], &[u8]); 6] = [
    (
        b"\x1c\x02\x37\0\x0820000229\x1c\x02\x3c\0\x0b235959-2359",
        b"2000-02-29T23:59:59-23:59",
    ),
    (
        b"\x1c\x02\x37\0\x0820210304\x1c\x02\x3c\0\x0b050660+0100",
        b"2021-03-04",
    ),
    (
        b"\x1c\x02\x37\0\x0820210304\x1c\x02\x3c\0\x0b050607+2400",
        b"2021-03-04",
    ),
    (
        b"\x1c\x02\x37\0\x0820210304\x1c\x02\x3c\0\x06050607",
        b"2021-03-04",
    ),
    (b"\x1c\x02\x37\0\x0800000101", b""),
    (b"\x1c\x02\x37\0\x072021030", b""),
];

/// The values of the properties of a block.
fn fields_in(alloc: Global, block: &[u8]) -> Result<Sequence<Option<Sequence<Bytes>>>, Memory> {
    match Datasets::of(alloc, block) {
        Ok(datasets) => iptc_fields(alloc, &datasets),
        Err(_) => Err(Memory),
    }
}

/// A text of a property's value, or nothing.
fn text_at(fields: &[Option<Sequence<Bytes>>], property: usize, i: usize) -> &[u8] {
    match fields.get(property) {
        Some(Some(texts)) => match texts.get(i) {
            Some(text) => text.as_slice(),
            None => b"",
        },
        _ => b"",
    }
}

#[test]
fn datasets_give_values(rt: HostRuntime) -> Result<(), Fail> {
    let fields = fields_in(rt.alloc(), BLOCK)?;
    assert_eq!(rt; fields.len(), 12);
    for (property, i, wanted) in TEXTS {
        let text = text_at(fields.as_slice(), property, i);
        assert_eq!(rt; text, wanted, "of {property} at {i}");
    }
    Ok(())
}

#[test]
fn dates_have_their_times(rt: HostRuntime) -> Result<(), Fail> {
    for (block, wanted) in DATES {
        let fields = fields_in(rt.alloc(), block)?;
        let text = text_at(fields.as_slice(), 4, 0);
        assert_eq!(rt; text, wanted);
    }
    Ok(())
}
