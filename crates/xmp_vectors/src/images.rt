//! TIFF and BigTIFF files that are shown, changed in their places, and refused (TIFF 6.0, section 2).
use crate::PHOTO;
use crate::editing::{TIFF, packet};
use crate::patching::patch;
use crate::runs::{SOUND, run_edit, run_over};
use std::alloc::{AllocError, Global};
use std::test::Fail;
use xmp_values::Memory;

const LINES: &str = "about \ndc:format text image/jpeg\n";

/// A strip of 4 bytes. The header's offset, of the directory before the strip, is another one where the directory
/// was written anew behind it.
pub fn strip(offset: u8) -> [u8; 42] {
    [
        b'M', b'M', 0, 42, 0, 0, 0, offset, // header
        0, 2, // two entries
        0x01, 0x11, 0, 4, 0, 0, 0, 1, 0, 0, 0, 38, // the strip's offset
        0x01, 0x17, 0, 4, 0, 0, 0, 1, 0, 0, 0, 4, // its length
        0, 0, 0, 0, // no next directory
        1, 2, 3, 4, // the strip
    ]
}

/// The directory of that strip with an entry of a packet of 2,376 bytes, which stands behind it.
pub const DIRECTORY: [u8; 42] = [
    0, 3, // three entries
    0x01, 0x11, 0, 4, 0, 0, 0, 1, 0, 0, 0, 38, // the strip's offset
    0x01, 0x17, 0, 4, 0, 0, 0, 1, 0, 0, 0, 4, // its length
    0x02, 0xbc, 0, 1, 0, 0, 0x09, 0x48, 0, 0, 0, 84, // the packet
    0, 0, 0, 0, // no next directory
];

/// A TIFF file of 2,460 bytes with a packet of this text.
pub fn image(alloc: Global, text: &str) -> Result<Vec<u8>, AllocError> {
    let mut file = Vec::from_slice(alloc, &strip(42))?;
    file.extend_from_slice(&DIRECTORY)?;
    file.extend_from_slice(packet(alloc, text, 2048, "w")?.as_slice())?;
    Ok(file)
}

/// The same of a BigTIFF file of 2,428 bytes, little-endian, without a picture.
pub fn big_image(alloc: Global, text: &str) -> Result<Vec<u8>, AllocError> {
    let mut file = Vec::from_slice(
        alloc,
        &[
            b'I', b'I', 43, 0, 8, 0, 0, 0, 16, 0, 0, 0, 0, 0, 0, 0, // header
            1, 0, 0, 0, 0, 0, 0, 0, // one entry
            0xbc, 0x02, 7, 0, 0x48, 0x09, 0, 0, 0, 0, 0, 0, 52, 0, 0, 0, 0, 0, 0, 0, // the packet
            0, 0, 0, 0, 0, 0, 0, 0, // no next directory
        ],
    )?;
    file.extend_from_slice(packet(alloc, text, 2048, "w")?.as_slice())?;
    Ok(file)
}

/// Whether `tree` of these bytes sends this text and this line.
fn tree_ends(alloc: Global, file: &[u8], text: &str, line: &str) -> Result<bool, Memory> {
    Ok(run_over(alloc, &["tree", "a.xmp"], file)?.ended(text, line))
}

#[test]
fn an_image_is_shown(rt: HostRuntime) -> Result<(), Fail> {
    let alloc = rt.alloc();
    assert!(rt; tree_ends(alloc, image(alloc, PHOTO)?.as_slice(), LINES, "")?);
    assert!(rt; tree_ends(alloc, big_image(alloc, PHOTO)?.as_slice(), LINES, "")?);
    assert!(rt; tree_ends(alloc, &strip(8), "about \n", "")?);
    Ok(())
}

/// Whether `set` and `patch` exchange the packet in its place.
fn exchanges(alloc: Global, old: &[u8], new: &[u8], report: &str) -> Result<bool, Memory> {
    let words = ["set", "a.xmp", "out", "dc:format", "image/tiff"];
    let set = run_edit(alloc, &words, old, b"", SOUND)?;
    let patched = patch(alloc, old, "set dc:format image/tiff", 0)?;
    Ok(
        set.ended(report, "")
            && set.wrote(new)
            && patched.ended(report, "")
            && patched.file() == new,
    )
}

#[test]
fn a_packet_is_exchanged_in_its_place(rt: HostRuntime) -> Result<(), Fail> {
    let alloc = rt.alloc();
    let old = image(alloc, PHOTO)?;
    let new = image(alloc, TIFF)?;
    assert!(rt; exchanges(alloc, &old, &new, "in-place 2460\n")?);
    let old = big_image(alloc, PHOTO)?;
    let new = big_image(alloc, TIFF)?;
    assert!(rt; exchanges(alloc, &old, &new, "in-place 2428\n")?);
    Ok(())
}

/// A file of 60 bytes whose packet shares 2 bytes with its strip.
const OVERLAP: &[u8] = b"MM\x00\x2A\x00\x00\x00\x08\
    \x00\x03\
    \x01\x11\x00\x04\x00\x00\x00\x01\x00\x00\x00\x32\
    \x01\x17\x00\x04\x00\x00\x00\x01\x00\x00\x00\x04\
    \x02\xBC\x00\x01\x00\x00\x00\x08\x00\x00\x00\x34\
    \x00\x00\x00\x00\
    \x01\x02\x03\x04\x00\x00\x00\x00\x00\x00";

#[test]
fn broken_directories_are_refused(rt: HostRuntime) -> Result<(), Fail> {
    let alloc = rt.alloc();
    let mut twice = strip(8);
    twice[37] = 8;
    let none = strip(0);
    let cases: [(&[u8], &str); 5] = [
        (OVERLAP, "refused Overlap file 52 50 4\n"),
        (&twice, "refused DirectoryTwice file 8 0 0\n"),
        (&none, "refused DirectoryOut file 0 0 0\n"),
        (b"II\x2B\x00\x08", "refused ShortHeader file 0 0 0\n"),
        (
            b"II\x2B\x00\x04\x00\x00\x00\x00\x00\x00\x00\x00\x00\x00\x00",
            "refused BigTiff file 0 0 0\n",
        ),
    ];
    for (file, line) in cases {
        assert!(rt; tree_ends(alloc, file, "", line)?, "{line}");
    }
    Ok(())
}

/// The line of the first `n` bytes of a file of 42 bytes with a strip.
fn line_of(n: usize) -> &'static str {
    match n {
        0..=3 => "refused NotKnown file 0 0 0\n",
        4..=7 => "refused ShortHeader file 0 0 0\n",
        8..=37 => "refused DirectoryOut file 8 0 0\n",
        38..=41 => "refused RegionOut file 10 0 0\n",
        _ => "",
    }
}

#[test]
fn an_image_that_is_cut_off_is_refused(rt: HostRuntime) -> Result<(), Fail> {
    let file = strip(8);
    for n in 0..=42 {
        let text = if n < 42 { "" } else { "about \n" };
        let cut = file.get(..n).unwrap_or(b"");
        assert!(rt; tree_ends(rt.alloc(), cut, text, line_of(n))?, "{n}");
    }
    Ok(())
}

/// A TIFF file of so many empty directories of 6 bytes, each of which names the next one.
fn chain(alloc: Global, count: u16) -> Result<Vec<u8>, AllocError> {
    let mut file = Vec::from_slice(alloc, b"MM\x00\x2A\x00\x00\x00\x08")?;
    for i in 0..count {
        let is_last = i as u32 + 1 == count as u32;
        let next = if is_last { 0 } else { 14 + 6 * (i as u32) };
        file.extend_from_slice(&[0, 0])?;
        file.extend_from_slice(&next.to_be_bytes())?;
    }
    Ok(file)
}

#[test]
fn a_long_chain_of_directories_is_refused(rt: HostRuntime) -> Result<(), Fail> {
    let alloc = rt.alloc();
    assert!(rt; tree_ends(alloc, chain(alloc, 1000)?.as_slice(), "about \n", "")?);
    let line = "refused TooManyDirectories file 6008 0 0\n";
    assert!(rt; tree_ends(alloc, chain(alloc, 1001)?.as_slice(), "", line)?);
    Ok(())
}
