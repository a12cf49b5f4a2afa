//! Portions by their bytes, in tables of what joins and of what doesn't.
use crate::{ExtStop, Head, Joiner, name_of, portion_count, portion_into, segment_len, tile};
use std::alloc::{AllocError, Global};
use std::test::Fail;
use xmp_base::FileSpan;
use xmp_values::{Bytes, Digits, Memory};

const NAME: &str = "0123456789ABCDEF0123456789ABCDEF";

/// The text that portions have parts of.
const TEXT: &[u8] = b"abcdefghijklmnopqrstuvwxyz0123456789abcdefghijklmnopqrstuvwxyz";

/// A portion: the full length, the place in the text, and the length.
type Portion = (u32, u32, u32);

/// The bytes of the text from a place on.
fn part(offset: u32, len: u32) -> &'static [u8] {
    let start = offset as usize;
    TEXT.get(start..start + len as usize).unwrap_or(b"")
}

/// The payload of a portion.
fn payload(alloc: Global, name: &str, portion: Portion) -> Result<Vec<u8>, AllocError> {
    let (full, offset, len) = portion;
    let mut bytes = b"http://ns.adobe.com/xmp/extension/\0".to_vec(alloc)?;
    bytes.extend_from_slice(name.as_bytes())?;
    bytes.extend_from_slice(&full.to_be_bytes())?;
    bytes.extend_from_slice(&offset.to_be_bytes())?;
    bytes.extend_from_slice(part(offset, len))?;
    Ok(bytes)
}

/// What portions of one name join to, for the name above.
fn join(alloc: Global, name: &str, portions: &[Portion]) -> Result<Option<Bytes>, ExtStop> {
    let Some(note) = Digits::read(NAME.as_bytes()) else {
        return Err(ExtStop::Memory);
    };
    let mut joiner = Joiner::new(alloc, note);
    for portion in portions {
        let payload = payload(alloc, name, *portion)?;
        joiner.add(payload.as_slice())?;
    }
    joiner.finish()
}

/// What their heads tell.
fn tile_heads(alloc: Global, portions: &[Portion]) -> Result<Option<u32>, ExtStop> {
    let mut heads = Vec::new(alloc);
    for portion in portions {
        let (full, offset, len) = *portion;
        let head = Head {
            full,
            offset,
            len,
            at: 0,
        };
        if heads.push(head).is_err() {
            return Err(ExtStop::Memory);
        }
    }
    tile(&mut heads)
}

/// Whether an answer is the expected one: so many first bytes of the text.
fn is_text(
    joined: &Result<Option<Bytes>, ExtStop>,
    expected: Result<Option<u32>, ExtStop>,
) -> bool {
    match (joined, expected) {
        (Ok(Some(joined)), Ok(Some(len))) => joined.as_slice() == part(0, len),
        (Ok(None), Ok(None)) => true,
        (Err(stop), Err(expected)) => *stop == expected,
        _ => false,
    }
}

#[test]
fn portions_join_or_not(rt: HostRuntime) {
    let cases: [(&[Portion], Result<Option<u32>, ExtStop>); 14] = [
        (&[], Ok(None)),
        (&[(5, 3, 2), (5, 0, 3)], Ok(Some(5))),
        // a hole, an overlap, a repeated portion, no beginning
        (&[(5, 0, 2), (5, 3, 2)], Err(ExtStop::Gap(2))),
        (&[(5, 0, 3), (5, 2, 3)], Err(ExtStop::Gap(3))),
        (&[(3, 0, 3), (3, 0, 3)], Err(ExtStop::Gap(3))),
        (&[(5, 1, 4)], Err(ExtStop::Gap(0))),
        // portions without a byte, where the text goes on and where it doesn't
        (&[(3, 0, 3), (3, 3, 0), (3, 0, 0)], Ok(Some(3))),
        (&[(3, 0, 3), (3, 1, 0)], Err(ExtStop::Gap(3))),
        (&[(0, 0, 0)], Ok(Some(0))),
        // full lengths that lie
        (&[(5, 0, 3), (6, 3, 2)], Err(ExtStop::Gap(5))),
        (&[(2, 0, 3)], Err(ExtStop::Gap(3))),
        (&[(100, 0, 50)], Err(ExtStop::Gap(50))),
        (
            &[(16_777_217, 0, 3), (3, 0, 3)],
            Err(ExtStop::TooLong(16_777_217)),
        ),
        (&[(3, 0, 3), (16_777_217, 3, 0)], Err(ExtStop::Gap(3))),
    ];
    for (portions, expected) in cases {
        let joined = join(rt.alloc(), NAME, portions);
        assert!(rt; is_text(&joined, expected), "of {portions:?}");
        assert_eq!(rt;
            tile_heads(rt.alloc(), portions),
            expected,
            "of {portions:?}"
        );
    }
}

#[test]
fn names_are_compared_without_regard_to_case(rt: HostRuntime) -> Result<(), Fail> {
    let small = "0123456789abcdef0123456789aBCDEF";
    for (name, expected) in [
        (small, Ok(Some(2))),
        ("0123456789ABCDEF0123456789ABCDEE", Ok(None)),
        ("0123456789ABCDEF0123456789ABCDEG", Ok(None)),
    ] {
        let joined = join(rt.alloc(), name, &[(2, 0, 2)]);
        assert!(rt; is_text(&joined, expected), "of {name}");
    }
    let payload = payload(rt.alloc(), small, (7, 5, 2))?;
    let Some(name) = Digits::read(NAME.as_bytes()) else {
        panic!(rt; "digits");
    };
    for (read, end, len) in [
        (75, 177, Some(2)),
        (77, 177, Some(2)),
        (74, 177, None),
        (75, 174, None),
        (75, 175, Some(0)),
        (75, 65_633, Some(65_458)),
        (75, 65_634, None),
    ] {
        let Some(front) = payload.as_slice().get(..read) else {
            panic!(rt; "a payload of 77 bytes");
        };
        let head = Head::read(front, FileSpan { start: 100, end }, &name);
        let expected = len.map(|len| Head {
            full: 7,
            offset: 5,
            len,
            at: 175,
        });
        assert_eq!(rt; head, expected, "to {end}");
    }
    Ok(())
}

/// The segment of portion k.
fn segment(alloc: Global, text: &[u8], name: &Digits, k: usize) -> Result<Vec<u8>, Memory> {
    if text.len() > 16_777_216 || k >= portion_count(text.len()) {
        return Err(Memory);
    }
    let mut to = vec![in alloc; 0u8; segment_len(text.len(), k)]?;
    portion_into(text, name, k, to.as_mut_slice());
    Ok(to)
}

#[test]
fn a_text_is_written_and_joined(rt: HostRuntime) -> Result<(), Fail> {
    for (text, digits) in [
        ("", "D41D8CD98F00B204E9800998ECF8427E"),
        ("abc", "900150983CD24FB0D6963F7D28E17F72"),
    ] {
        let name = name_of(rt.alloc(), text.as_bytes())?;
        assert!(rt; name.bytes() == digits.as_bytes());
    }
    let mut text = Vec::new(rt.alloc());
    for i in 0..70_245u32 {
        text.push((i % 251) as u8)?;
    }
    let name = name_of(rt.alloc(), text.as_slice())?;
    assert_eq!(rt; portion_count(text.len()), 2);
    let first = segment(rt.alloc(), text.as_slice(), &name, 0)?;
    let second = segment(rt.alloc(), text.as_slice(), &name, 1)?;
    assert_eq!(rt; (first.len(), second.len()), (65_400 + 79, 4_845 + 79));
    assert!(rt;
        first
            .as_slice()
            .starts_with(b"\xff\xe1\xff\xc5http://ns.adobe.com/xmp/extension/\0")
    );
    assert!(rt; second.as_slice()[..4] == [0xff, 0xe1, 0x13, 0x3a]);
    assert!(rt; second.as_slice()[71..79] == [0, 1, 0x12, 0x65, 0, 0, 0xff, 0x78]);
    let mut joiner = Joiner::new(rt.alloc(), name);
    for segment in [second, first] {
        if let Some(payload) = segment.as_slice().get(4..) {
            joiner.add(payload)?;
        }
    }
    let joined = joiner.finish();
    assert!(rt;
        joined.is_ok_and(|found| found.is_some_and(|found| found.as_slice() == text.as_slice()))
    );
    for (len, count) in [(0, 0), (1, 1), (65_400, 1), (65_401, 2), (16_777_216, 257)] {
        assert_eq!(rt; portion_count(len), count);
    }
    assert_eq!(rt; segment_len(65_401, 1), 80);
    Ok(())
}
