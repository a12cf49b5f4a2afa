//! What stays of small files, and the sums of one with an index.
ghost use Rattle.std.specs.Prelude.{◌≡◌, ◌<◌, IfOk};
ghost use Rattle.jpeg_regions.specs.Cutting.{BeginsJpeg};

use crate::{KeptRuns, MovedPictures};
use jpeg_regions::Regions;
use std::alloc::{AllocError, Global};
use std::test::Fail;
use xmp_base::FileSpan;
use xmp_values::Memory;

/// An APP0 segment of 6 bytes.
const FIRST: &[u8] = &[0xff, 0xe0, 0x00, 0x04, b'a', b'b'];

/// The index of a multi-picture file, of 8 bytes.
const INDEX: &[u8] = &[0xff, 0xe2, 0x00, 0x06, b'M', b'P', b'F', 0x00];

/// A portion of 1 byte, of 80 bytes.
const PORTION: &[u8] =
    b"\xff\xe1\x00\x4ehttp://ns.adobe.com/xmp/extension/\x000123456789ABCDEF0123456789ABCDEF\x00\x00\x00\x01\x00\x00\x00\x00<";

/// A comment of 5 bytes.
const COMMENT: &[u8] = &[0xff, 0xfe, 0x00, 0x03, b'c'];

/// A main segment with a packet of 1 byte, of 34 bytes.
const MAIN: &[u8] = b"\xff\xe1\x00\x20http://ns.adobe.com/xap/1.0/\x00<";

/// The front of a main segment of 361 bytes, with a packet of 328 bytes.
const LONG_MAIN: &[u8] = b"\xff\xe1\x01\x67http://ns.adobe.com/xap/1.0/\x00";

/// The end of the image.
const END: &[u8] = &[0xff, 0xd9];

/// The bytes of pieces.
fn joined_of(alloc: Global, pieces: &[&[u8]]) -> Result<Vec<u8>, AllocError> {
    let mut bytes = Vec::new(alloc);
    for piece in pieces {
        bytes.extend_from_slice(piece)?;
    }
    Ok(bytes)
}

/// A file: FF D8, and these bytes after it.
fn file_of(alloc: Global, rest: &[u8]) -> Result<Vec<u8>, AllocError>
    ensures { IfOk result (λ file. BeginsJpeg file.items) }
{
    let mut file = vec![in alloc; 0xff, 0xd8]?;
    file.extend_from_slice(rest)?;
    Ok(file)
}

/// What stays of a file, whose portions were all joined, or none; nothing of a file that can't be cut.
fn kept_of(alloc: Global, file: &[u8], all: bool) -> Result<Option<KeptRuns>, Memory>
    requires { BeginsJpeg file.now }
{
    let Ok(regions) = Regions::cut(alloc, file) else {
        return Ok(None);
    };
    let portions = regions.portions(alloc)?;
    let joined = if all { portions.as_slice() } else { &[] };
    let kept = KeptRuns::of(alloc, &regions, joined, file.len() as u64)?;
    Ok(Some(kept))
}

/// Whether these are the ranges.
fn are(spans: &[FileSpan], expected: &[(u64, u64)]) -> bool {
    spans.len() == expected.len()
        && spans.iter().zip(expected).all(|(span, (start, end))| span.start == *start
            && span.end == *end)
}

/// Whether what stays of a file of these pieces is this.
fn stays(
    alloc: Global,
    pieces: &[&[u8]],
    all: bool,
    before: &[(u64, u64)],
    after: &[(u64, u64)],
) -> Result<bool, Memory> {
    let rest = joined_of(alloc, pieces)?;
    let file = file_of(alloc, rest.as_slice())?;
    match kept_of(alloc, file.as_slice(), all)? {
        Some(kept) => Ok(are(kept.before.as_slice(), before) && are(kept.after.as_slice(), after)),
        None => Ok(false),
    }
}

#[test]
fn places(rt: HostRuntime) -> Result<(), Fail> {
    let alloc = rt.alloc();
    assert!(rt; stays(alloc, &[END], true, &[], &[(2, 4)])?);
    assert!(rt; stays(alloc, &[FIRST, COMMENT, END], true, &[(2, 8)], &[(8, 15)])?);
    // joined portions don't count
    assert!(rt;
        stays(
            alloc,
            &[COMMENT, PORTION, FIRST, MAIN, END],
            true,
            &[(2, 7), (87, 93)],
            &[(127, 129)]
        )?
    );
    assert!(rt;
        stays(
            alloc,
            &[PORTION, FIRST, COMMENT, END],
            true,
            &[(82, 88)],
            &[(88, 95)]
        )?
    );
    assert!(rt;
        stays(
            alloc,
            &[PORTION, FIRST, COMMENT, END],
            false,
            &[],
            &[(2, 95)]
        )?
    );
    Ok(())
}

#[test]
fn pictures(rt: HostRuntime) -> Result<(), Fail> {
    let alloc = rt.alloc();
    let mut rest = joined_of(alloc, &[INDEX, LONG_MAIN])?;
    for _ in 0..328 {
        rest.push(b' ')?;
    }
    rest.extend_from_slice(END)?;
    let file = file_of(alloc, rest.as_slice())?;
    let Some(kept) = kept_of(alloc, file.as_slice(), true)? else {
        return Err(Fail::from("the file is cut"));
    };
    let moved = MovedPictures {
        start: 2,
        old: 363,
        new: 2412,
    };
    assert_eq!(rt; kept.moved_pictures(2410), Some(moved));
    assert_eq!(rt; kept.moved_pictures(361), None);
    Ok(())
}
