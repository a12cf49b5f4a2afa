//! Files of the standard's forms, in memory and over devices.
ghost use Rattle.std.specs.Prelude.{◌≡◌, ◌<◌, IfOk};
ghost use Rattle.jpeg_regions.specs.Cutting.{BeginsJpeg};

use crate::{CutStop, JpegStop, RegionKind, Regions, payload_mut};
use std::alloc::{AllocError, Global};
use std::test::Fail;
use xmp_base::{FileSpan, MemoryDesk, SparseDesk};
use xmp_values::{Memory, Rule};

/// A file: FF D8, and these bytes after it.
fn file_of(alloc: Global, rest: &[u8]) -> Result<Vec<u8>, AllocError>
    ensures { IfOk result (λ file. BeginsJpeg file.items) }
{
    let mut file = vec![in alloc; 0xff, 0xd8]?;
    file.extend_from_slice(rest)?;
    Ok(file)
}

/// A main segment with a packet of `len` spaces.
fn main_segment(alloc: Global, len: u16) -> Result<Vec<u8>, AllocError>
    requires { len < 1000 }
{
    let [high, low] = (len + 31).to_be_bytes();
    let mut segment = vec![in alloc; 0xff, 0xe1, high, low]?;
    segment.extend_from_slice(b"http://ns.adobe.com/xap/1.0/\0")?;
    for _ in 0..len {
        segment.push(b' ')?;
    }
    Ok(segment)
}

/// The fault of a file, if there is one.
fn fault_of(alloc: Global, rest: &[u8]) -> Result<Option<(Rule, u64)>, Memory> {
    let file = file_of(alloc, rest)?;
    match Regions::cut(alloc, file.as_slice()) {
        Ok(_) => Ok(None),
        Err(JpegStop::Fault(rule, place)) => Ok(Some((rule, place))),
        Err(JpegStop::Memory) => Err(Memory),
    }
}

/// Cuts a file on a desk that moves one byte a call and fails at this call.
fn cut_on_desk(alloc: Global, file: &[u8], failing: u64) -> Result<Result<Regions, CutStop>, Memory>
    requires { BeginsJpeg file.now }
{
    let mut desk = MemoryDesk::new(alloc);
    desk.add("a.jpg", file)?;
    desk.cut(1);
    desk.fail(failing)?;
    Ok(Regions::cut_from(alloc, &mut desk, "a.jpg"))
}

/// Cuts a file of this length that begins with these bytes and a second byte DA after them.
fn cut_sparse(alloc: Global, front: &[u8], len: u64) -> Result<Result<Regions, CutStop>, Memory> {
    let mut desk = SparseDesk::new(alloc, "a.jpg", len)?;
    desk.piece(0, front)?;
    desk.piece(front.len() as u64, &[0xda])?;
    Ok(Regions::cut_from(alloc, &mut desk, "a.jpg"))
}

#[test]
fn first_faults(rt: HostRuntime) -> Result<(), Fail> {
    let cases: [(&[u8], Option<(Rule, u64)>); 16] = [
        (&[0xff, 0xd9], None),
        (&[0xff, 0xff, 0xda, 0x00, 0xff], None),
        (
            &[0xff, 0x01, 0xff, 0xd0, 0xff, 0xff, 0xd7, 0xff, 0xd9],
            None,
        ),
        (&[], Some((Rule::NoTail, 2))),
        (&[0xff, 0xe0, 0x00, 0x02], Some((Rule::NoTail, 6))),
        (&[0xff, 0x00, 0x00, 0x02], Some((Rule::BadMarker, 2))),
        (&[0x00], Some((Rule::BadMarker, 2))),
        (&[0xff, 0xff, 0xd8, 0xff, 0xd9], Some((Rule::BadMarker, 2))),
        (
            &[0xff, 0xe0, 0x00, 0x02, 0xff, 0xd8],
            Some((Rule::BadMarker, 6)),
        ),
        (
            &[0xff, 0xe0, 0x00, 0x01, 0xff, 0xd9],
            Some((Rule::BadLength, 2)),
        ),
        (&[0xff, 0xe0, 0x00, 0x00], Some((Rule::BadLength, 2))),
        (&[0xff, 0xe1, 0x00, 0x10], Some((Rule::Truncated, 2))),
        (&[0xff, 0xe1, 0x00], Some((Rule::Truncated, 2))),
        (&[0xff, 0xe1], Some((Rule::Truncated, 2))),
        (&[0xff, 0xff], Some((Rule::Truncated, 2))),
        (
            &[0xff, 0xfe, 0x00, 0x03, 0x00, 0xff],
            Some((Rule::Truncated, 7)),
        ),
    ];
    for (rest, fault) in cases {
        assert_eq!(rt; fault_of(rt.alloc(), rest)?, fault, "of {rest:?}");
    }
    let segment = main_segment(rt.alloc(), 328)?;
    let mut rest = segment.clone()?;
    rest.extend_from_slice(segment.as_slice())?;
    rest.extend_from_slice(&[0xff, 0xd9])?;
    assert_eq!(rt;
        fault_of(rt.alloc(), rest.as_slice())?,
        Some((Rule::TwoPackets, 363))
    );
    Ok(())
}

#[test]
fn cut_to_a_length(rt: HostRuntime) -> Result<(), Fail> {
    let mut rest = main_segment(rt.alloc(), 328)?;
    rest.extend_from_slice(&[0xff, 0xd9])?;
    assert_eq!(rt; rest.len(), 363);
    for n in 0..364 {
        let fault = match n {
            0 => Some((Rule::NoTail, 2)),
            361 => Some((Rule::NoTail, 363)),
            362 => Some((Rule::Truncated, 363)),
            363 => None,
            _ => Some((Rule::Truncated, 2)),
        };
        assert_eq!(rt;
            fault_of(rt.alloc(), &rest.as_slice()[..n])?,
            fault,
            "at {n}"
        );
    }
    Ok(())
}

#[test]
fn kinds(rt: HostRuntime) -> Result<(), Fail> {
    let mut rest = main_segment(rt.alloc(), 2)?;
    let more: [&[u8]; 10] = [
        b"\xff\xe0\0\x03J",
        b"\xff\xff\xe1\0\x08Exif\0\0",
        b"\xff\xe1\0\x07Exif\0",
        b"\xff\xe2\0\x06MPF\0",
        b"\xff\xe2\0\x06ICC\0",
        b"\xff\xed\0\x10Photoshop 3.0\0",
        b"\xff\xe1\0\x4dhttp://ns.adobe.com/xmp/extension/\0",
        b"0123456789abcdefABCDEF0123456789\0\0\0\x01\0\0\0\0",
        b"\xff\x01",
        b"\xff\xff\xda\0\xff\xd9",
    ];
    for piece in more {
        rest.extend_from_slice(piece)?;
    }
    let file = file_of(rt.alloc(), rest.as_slice())?;
    let Ok(regions) = Regions::cut(rt.alloc(), file.as_slice()) else {
        panic!(rt; "no list");
    };
    let list: [(RegionKind, u64, u64, u64, u64); 10] = [
        (RegionKind::Main, 2, 37, 6, 37),
        (RegionKind::App0, 37, 42, 41, 42),
        (RegionKind::Exif, 42, 53, 47, 53),
        (RegionKind::Other, 53, 62, 57, 62),
        (RegionKind::Mpf, 62, 70, 66, 70),
        (RegionKind::Other, 70, 78, 74, 78),
        (RegionKind::Resources, 78, 96, 82, 96),
        (RegionKind::Portion, 96, 175, 100, 175),
        (RegionKind::Alone, 175, 177, 177, 177),
        (RegionKind::Tail, 177, 183, 180, 180),
    ];
    assert_eq!(rt; regions.len(), 10);
    for (i, (kind, start, end, from, to)) in list.into_iter().enumerate() {
        assert!(rt; i < regions.len());
        assert_eq!(rt; regions.kind(i), kind, "at {i}");
        assert_eq!(rt; regions.range(i), FileSpan { start, end }, "at {i}");
        assert_eq!(rt;
            regions.payload(i),
            FileSpan {
                start: from,
                end: to
            },
            "at {i}"
        );
    }
    Ok(())
}

#[test]
fn over_devices(rt: HostRuntime) -> Result<(), Fail> {
    let mut rest = main_segment(rt.alloc(), 328)?;
    rest.extend_from_slice(&[0xff, 0xd9])?;
    let file = file_of(rt.alloc(), rest.as_slice())?;
    // the length, the marker, the length of the segment, 75 bytes and the tail's marker
    let calls = 1 + 2 + 2 + 75 + 2;
    for failing in 1..calls + 1 {
        let stop = cut_on_desk(rt.alloc(), file.as_slice(), failing)?.err();
        assert_eq!(rt; stop, Some(CutStop::Device), "at {failing}");
    }
    let list = cut_on_desk(rt.alloc(), file.as_slice(), calls + 1)?;
    assert_eq!(rt; list.ok().map(|regions| regions.len()), Some(2));

    let long = 1 << 30;
    let front = &file.as_slice()[..file.len() - 1];
    let Ok(regions) = cut_sparse(rt.alloc(), front, long)? else {
        panic!(rt; "no list");
    };
    assert_eq!(rt; regions.len(), 2);
    assert_eq!(rt; regions.kind(1), RegionKind::Tail);
    assert_eq!(rt;
        regions.range(1),
        FileSpan {
            start: 363,
            end: long
        }
    );
    Ok(())
}

#[test]
fn a_payload_is_written(rt: HostRuntime) {
    let mut bytes = [1u8, 2, 3, 4, 5];
    payload_mut(&mut bytes, 1, 3).copy_from_slice(&[7, 8]);
    assert_eq!(rt; bytes, [1, 7, 8, 4, 5]);
}
