//! JPEG files that are relocated, whole and with the tree in two texts (XMP Specification Part 3, 1.1.3).
use crate::PHOTO;
use crate::editing::packet;
use crate::runs::{Edited, Plan, SOUND, run_edit, run_length, run_moving, run_over};
use std::alloc::{AllocError, Global};
use std::test::Fail;
use xmp_values::Memory;

const EMPTY: &[u8] = b"\xFF\xD8\xFF\xD9";

const SIGNATURE: &[u8] = b"http://ns.adobe.com/xap/1.0/\0";

const EXTENSION: &[u8] = b"http://ns.adobe.com/xmp/extension/\0";

/// The MD5 of the text of 70,245 bytes in which 70,000 times `a` is the value of `dc:source`.
const NAME: &[u8] = b"8A71786B24573BDE56354E41D83B6D16";

const SET: [&str; 5] = ["set", "a.xmp", "out", "dc:format", "image/jpeg"];

const APPLY: [&str; 4] = ["apply", "a.xmp", "out", "script"];

const APP0: &[u8] = b"\xFF\xD8\xFF\xE0\x00\x04ab";

const COMMENT: &[u8] = b"\xFF\xFE\x00\x03c\xFF\xD9";

fn set(alloc: Global, file: &[u8]) -> Result<Edited, Memory> {
    run_edit(alloc, &SET, file, b"", SOUND)
}

fn apply(alloc: Global, file: &[u8], script: &[u8]) -> Result<Edited, Memory> {
    run_edit(alloc, &APPLY, file, script, SOUND)
}

/// These bytes, and after them as many letters as they are told.
pub fn with_letters(alloc: Global, front: &[u8], count: usize) -> Result<Vec<u8>, AllocError> {
    let mut bytes = Vec::from_slice(alloc, front)?;
    bytes.resize(front.len() + count.min(100_000), b'a')?;
    Ok(bytes)
}

/// How often these bytes stand in the file.
fn count_of(file: &[u8], part: &[u8]) -> usize {
    file.windows(part.len().max(1))
        .filter(|window| *window == part)
        .count()
}

/// Whether the file begins so, has this length, and these bytes at this place.
pub fn is_file(file: Option<&[u8]>, front: &[u8], len: usize, at: usize, piece: &[u8]) -> bool {
    match file {
        Some(file) => {
            file.len() == len
                && file.starts_with(front)
                && file.get(at..at.saturating_add(piece.len())) == Some(piece)
        }
        None => false,
    }
}

#[test]
fn a_file_without_a_packet_gets_one(rt: HostRuntime) -> Result<(), Fail> {
    let alloc = rt.alloc();
    let ran = set(alloc, EMPTY)?;
    let mut new = Vec::from_slice(alloc, b"\xFF\xD8\xFF\xE1\x09\x67")?;
    new.extend_from_slice(SIGNATURE)?;
    new.extend_from_slice(packet(alloc, PHOTO, 2048, "w")?.as_slice())?;
    new.extend_from_slice(b"\xFF\xD9")?;
    assert!(rt; ran.ended("relocated 4 2413\n", "") && ran.wrote(new.as_slice()));
    assert!(rt; ran.shows(alloc, "about \ndc:format text image/jpeg\n")?);
    Ok(())
}

/// The new main segment stands after the segment of JFIF.
#[test]
fn a_packet_is_put_after_jfif(rt: HostRuntime) -> Result<(), Fail> {
    let alloc = rt.alloc();
    let mut file = Vec::from_slice(alloc, APP0)?;
    file.extend_from_slice(COMMENT)?;
    let ran = set(alloc, file.as_slice())?;
    assert!(rt; ran.ended("relocated 15 2424\n", ""));
    assert!(rt; is_file(ran.out(), APP0, 2424, 8, b"\xFF\xE1\x09\x67http"));
    assert!(rt; is_file(ran.out(), APP0, 2424, 2417, COMMENT));
    Ok(())
}

/// A tree that is too long for a segment.
fn long_script(alloc: Global) -> Result<Vec<u8>, AllocError> {
    with_letters(alloc, b"set dc:format image/jpeg\nset dc:source ", 70_000)
}

/// The file of a main packet of 2,504 bytes, and of a text of 70,245 bytes in portions of 65,400 and 4,845.
fn in_two(alloc: Global) -> Result<Edited, Memory> {
    apply(alloc, EMPTY, long_script(alloc)?.as_slice())
}

#[test]
fn a_long_tree_stands_in_two_texts(rt: HostRuntime) -> Result<(), Fail> {
    let alloc = rt.alloc();
    let ran = in_two(alloc)?;
    assert!(rt; ran.ended("relocated 4 72944\n", ""));
    let front = b"\xFF\xD8\xFF\xE1\x09\xE7";
    assert!(rt; is_file(ran.out(), front, 72_944, 2539, b"\xFF\xE1\xFF\xC5http"));
    assert!(rt; is_file(ran.out(), front, 72_944, 68_018, b"\xFF\xE1\x13\x3Ahttp"));
    assert!(rt; is_file(ran.out(), front, 72_944, 2578, NAME));
    assert!(rt; is_file(ran.out(), front, 72_944, 72_942, b"\xFF\xD9"));
    Ok(())
}

/// The file with its two portions exchanged.
fn turned(alloc: Global, file: &[u8]) -> Result<Vec<u8>, AllocError> {
    let mut turned = Vec::from_slice(alloc, file.get(..2539).unwrap_or(EMPTY))?;
    turned.extend_from_slice(file.get(68_018..72_942).unwrap_or(EMPTY))?;
    turned.extend_from_slice(file.get(2539..68_018).unwrap_or(EMPTY))?;
    turned.extend_from_slice(b"\xFF\xD9")?;
    Ok(turned)
}

/// The order of portions doesn't matter; a tree that fits a segment again takes them out.
#[test]
fn two_texts_are_read_as_one_tree(rt: HostRuntime) -> Result<(), Fail> {
    let alloc = rt.alloc();
    let ran = in_two(alloc)?;
    let file = ran.out().unwrap_or(EMPTY);
    let lines = with_letters(
        alloc,
        b"about \ndc:format text image/jpeg\ndc:source text ",
        70_000,
    )?;
    for file in [file, turned(alloc, file)?.as_slice()] {
        let tree = run_over(alloc, &["tree", "a.xmp"], file)?;
        assert!(rt; tree.out.sent().starts_with(lines.as_slice()));
        assert_eq!(rt; tree.out.sent().len(), lines.len() + 1);
    }
    let again = apply(alloc, file, b"delete dc:source")?;
    assert!(rt; again.ended("relocated 72944 2413\n", ""));
    assert_eq!(rt; count_of(again.out().unwrap_or(EMPTY), EXTENSION), 0);
    Ok(())
}

/// A packet of 65,502 bytes fits a segment without padding. One byte more, and the property stands in a text of 65,430 bytes,
/// in portions of 65,400 and 30; the packet of the note has 2,426 bytes.
#[test]
fn the_longest_packet_of_a_segment(rt: HostRuntime) -> Result<(), Fail> {
    let alloc = rt.alloc();
    let fits = with_letters(alloc, b"set dc:source ", 65_184)?;
    let ran = apply(alloc, EMPTY, fits.as_slice())?;
    assert!(rt; ran.ended("relocated 4 65539\n", ""));
    assert_eq!(rt; count_of(ran.out().unwrap_or(EMPTY), EXTENSION), 0);
    let long = with_letters(alloc, b"set dc:source ", 65_185)?;
    let ran = apply(alloc, EMPTY, long.as_slice())?;
    assert!(rt; ran.ended("relocated 4 68051\n", ""));
    let front = b"\xFF\xD8\xFF\xE1\x09\x99";
    assert!(rt; is_file(ran.out(), front, 68_051, 2461, b"\xFF\xE1\xFF\xC5http"));
    assert!(rt; is_file(ran.out(), front, 68_051, 67_940, b"\xFF\xE1\x00\x6Bhttp"));
    Ok(())
}

/// An about that leaves no room even for the note.
#[test]
fn a_note_that_does_not_fit_is_refused(rt: HostRuntime) -> Result<(), Fail> {
    let alloc = rt.alloc();
    let front =
        b"<rdf:RDF xmlns:rdf=\"http://www.w3.org/1999/02/22-rdf-syntax-ns#\"><rdf:Description rdf:about=\"";
    let mut text = with_letters(alloc, front, 65_200)?;
    text.extend_from_slice(b"\"/></rdf:RDF>")?;
    // 31 and the 65,306 bytes of the text
    let mut file = Vec::from_slice(alloc, b"\xFF\xD8\xFF\xE1\xFF\x39")?;
    file.extend_from_slice(SIGNATURE)?;
    file.extend_from_slice(text.as_slice())?;
    file.extend_from_slice(b"\xFF\xD9")?;
    let ran = set(alloc, file.as_slice())?;
    assert!(rt; ran.ended("", "refused SegmentLimit main 0 65578 65502\n"));
    assert!(rt; ran.wrote_none());
    Ok(())
}

/// The index of a multi-picture file stands before a packet that is longer than its place: what stands behind it would have
/// 2,412 bytes instead of 363.
#[test]
fn a_multi_picture_file_is_refused(rt: HostRuntime) -> Result<(), Fail> {
    let alloc = rt.alloc();
    let mut file = Vec::from_slice(alloc, b"\xFF\xD8\xFF\xE2\x00\x06MPF\0\xFF\xE1\x01\x67")?;
    file.extend_from_slice(SIGNATURE)?;
    file.extend_from_slice(packet(alloc, PHOTO, 0, "w")?.as_slice())?;
    file.extend_from_slice(b"\xFF\xD9")?;
    let words = ["set", "a.xmp", "out", "dc:format", "image/x-raw"];
    let ran = run_edit(alloc, &words, file.as_slice(), b"", SOUND)?;
    assert!(rt; ran.ended("", "refused AfterMultiPicture file 2 363 2412\n") && ran.wrote_none());
    Ok(())
}

/// A file that is as long as a file may be, and would get a segment of 2,409 bytes.
#[test]
fn a_file_that_would_be_too_long_is_refused(rt: HostRuntime) -> Result<(), Fail> {
    let ran = run_length(rt.alloc(), &SET, EMPTY, 1_099_511_627_776)?;
    let line = "refused OutLimit file 0 1099511630185 1099511627776\n";
    assert!(rt; ran.ended("", line));
    Ok(())
}

/// Whether each call that fails in its turn is told, and leaves at most a beginning of the new file. The desk moves at most 8,192
/// bytes a call.
pub fn all_failures_told(
    alloc: Global,
    words: &[&str],
    file: &[u8],
    script: &[u8],
) -> Result<bool, Memory> {
    let whole = run_moving(alloc, words, file, script, SOUND, 8192)?;
    let new = whole.out().unwrap_or(EMPTY);
    for desk in 1..200 {
        let ran = run_moving(alloc, words, file, script, Plan { desk, ..SOUND }, 8192)?;
        if ran.is_done() {
            return Ok(desk > 1 && ran.wrote(new));
        }
        if !ran.ended("", "device\n") || !ran.began(new) {
            return Ok(false);
        }
    }
    Ok(false)
}

#[test]
fn a_failure_leaves_a_beginning_of_the_relocated_file(rt: HostRuntime) -> Result<(), Fail> {
    let alloc = rt.alloc();
    let script = long_script(alloc)?;
    assert!(rt; all_failures_told(alloc, &SET, EMPTY, b"")?);
    assert!(rt; all_failures_told(alloc, &APPLY, EMPTY, script.as_slice())?);
    // the portions of the file are read, and taken out
    let two = in_two(alloc)?;
    let file = two.out().unwrap_or(EMPTY);
    assert!(rt; all_failures_told(alloc, &APPLY, file, b"delete dc:source")?);
    Ok(())
}
