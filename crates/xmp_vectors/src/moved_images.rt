//! TIFF and BigTIFF files whose packet is put at their end (TIFF 6.0, section 2; XMP Specification Part 3, TIFF).
use crate::PHOTO;
use crate::editing::packet;
use crate::images::{big_image, image, strip};
use crate::relocated::{all_failures_told, is_file, with_letters};
use crate::runs::{Edited, SOUND, run_edit, run_length, run_moving};
use std::alloc::{AllocError, Global};
use std::test::Fail;
use xmp_values::Memory;

const SET: [&str; 5] = ["set", "a.xmp", "out", "dc:format", "image/jpeg"];

const APPLY: [&str; 4] = ["apply", "a.xmp", "out", "script"];

const LINES: &str = "about \ndc:format text image/jpeg\n";

fn set(alloc: Global, file: &[u8]) -> Result<Edited, Memory> {
    run_edit(alloc, &SET, file, b"", SOUND)
}

/// The directory is copied behind the strip with an entry more, and the header names the copy.
#[test]
fn a_directory_without_a_packet_is_copied(rt: HostRuntime) -> Result<(), Fail> {
    let alloc = rt.alloc();
    let new = image(alloc, PHOTO)?;
    let ran = set(alloc, &strip(8))?;
    assert!(rt; ran.ended("relocated 42 2460\n", "") && ran.wrote(&new));
    assert!(rt; ran.shows(alloc, LINES)?);
    let slow = run_moving(alloc, &SET, &strip(8), b"", SOUND, 1)?;
    assert!(rt; slow.ended("relocated 42 2460\n", "") && slow.wrote(&new));
    Ok(())
}

/// After an odd length stands a zero byte.
#[test]
fn a_copy_begins_at_an_even_place(rt: HostRuntime) -> Result<(), Fail> {
    let alloc = rt.alloc();
    let mut file = Vec::from_slice(alloc, &strip(8))?;
    file.push(7)?;
    let ran = set(alloc, file.as_slice())?;
    assert!(rt; ran.ended("relocated 43 2462\n", ""));
    assert!(rt;
        is_file(
            ran.out(),
            b"MM\x00\x2A\x00\x00\x00\x2C\x00\x02",
            2462,
            42,
            b"\x07\x00\x00\x03\x01\x11"
        )
    );
    assert!(rt; ran.shows(alloc, LINES)?);
    Ok(())
}

/// A packet of 5,400 bytes is put behind the old one; the count and the offset of the entry tell it, and all other bytes
/// stay.
#[test]
fn an_entry_tells_the_new_packet(rt: HostRuntime) -> Result<(), Fail> {
    let alloc = rt.alloc();
    let file = image(alloc, PHOTO)?;
    let script = with_letters(alloc, b"set dc:source ", 3000)?;
    let ran = run_edit(alloc, &APPLY, &file, script.as_slice(), SOUND)?;
    assert!(rt; ran.ended("relocated 2460 7860\n", ""));
    let out = ran.out().unwrap_or(b"");
    assert!(rt; out.get(..72) == file.get(..72) && out.get(80..2460) == file.get(80..2460));
    assert!(rt;
        is_file(
            ran.out(),
            b"MM",
            7860,
            72,
            b"\x00\x00\x15\x18\x00\x00\x09\x9C"
        )
    );
    assert!(rt; is_file(ran.out(), b"MM", 7860, 2460, b"<?xpacket begin="));
    assert!(rt; ran.shows(alloc, "dc:format text image/jpeg\ndc:source text aaa")?);
    Ok(())
}

/// After an odd length stands a zero byte, and the entry tells the place behind it.
#[test]
fn a_new_packet_begins_at_an_even_place(rt: HostRuntime) -> Result<(), Fail> {
    let alloc = rt.alloc();
    let mut file = image(alloc, PHOTO)?;
    file.push(7)?;
    let script = with_letters(alloc, b"set dc:source ", 3000)?;
    let ran = run_edit(alloc, &APPLY, &file, script.as_slice(), SOUND)?;
    assert!(rt; ran.ended("relocated 2461 7862\n", ""));
    let out = ran.out().unwrap_or(b"");
    assert!(rt; out.get(..72) == file.get(..72) && out.get(80..2461) == file.get(80..2461));
    assert!(rt;
        is_file(
            ran.out(),
            b"MM",
            7862,
            72,
            b"\x00\x00\x15\x18\x00\x00\x09\x9E"
        )
    );
    assert!(rt; is_file(ran.out(), b"MM", 7862, 2460, b"\x07\x00<?xpacket begin="));
    assert!(rt; ran.shows(alloc, "dc:format text image/jpeg\ndc:source text aaa")?);
    Ok(())
}

/// In a BigTIFF file the count and the offset have 8 bytes each, which begin with the least in a little-endian file.
#[test]
fn a_big_entry_tells_the_new_packet(rt: HostRuntime) -> Result<(), Fail> {
    let alloc = rt.alloc();
    let file = big_image(alloc, PHOTO)?;
    let script = with_letters(alloc, b"set dc:source ", 3000)?;
    let ran = run_edit(alloc, &APPLY, &file, script.as_slice(), SOUND)?;
    assert!(rt; ran.ended("relocated 2428 7828\n", ""));
    let out = ran.out().unwrap_or(b"");
    assert!(rt; out.get(..28) == file.get(..28) && out.get(44..2428) == file.get(44..2428));
    assert!(rt;
        is_file(
            ran.out(),
            b"II\x2B",
            7828,
            28,
            b"\x18\x15\x00\x00\x00\x00\x00\x00\x7C\x09\x00\x00\x00\x00\x00\x00"
        )
    );
    assert!(rt; is_file(ran.out(), b"II\x2B", 7828, 2428, b"<?xpacket begin="));
    assert!(rt; ran.shows(alloc, "dc:format text image/jpeg\ndc:source text aaa")?);
    Ok(())
}

/// Tags ascend: the new entry stands before one of a greater tag.
const COPYRIGHT: &[u8] = b"II\x2A\x00\x08\x00\x00\x00\
    \x02\x00\
    \x00\x01\x03\x00\x01\x00\x00\x00\x05\x00\x00\x00\
    \x98\x82\x02\x00\x02\x00\x00\x00\x63\x00\x00\x00\
    \x00\x00\x00\x00";

#[test]
fn an_entry_stands_before_a_greater_tag(rt: HostRuntime) -> Result<(), Fail> {
    let alloc = rt.alloc();
    let ran = set(alloc, COPYRIGHT)?;
    assert!(rt; ran.ended("relocated 38 2456\n", ""));
    let copy: &[u8] = b"\x03\x00\
        \x00\x01\x03\x00\x01\x00\x00\x00\x05\x00\x00\x00\
        \xBC\x02\x01\x00\x48\x09\x00\x00\x50\x00\x00\x00\
        \x98\x82\x02\x00\x02\x00\x00\x00\x63\x00\x00\x00\
        \x00\x00\x00\x00<?xpacket";
    assert!(rt; is_file(ran.out(), b"II\x2A\x00\x26\x00\x00\x00", 2456, 38, copy));
    assert!(rt; ran.shows(alloc, LINES)?);
    Ok(())
}

/// A BigTIFF file of 76 bytes with a strip.
const BIG_STRIP: &[u8] = b"MM\x00\x2B\x00\x08\x00\x00\x00\x00\x00\x00\x00\x00\x00\x10\
    \x00\x00\x00\x00\x00\x00\x00\x02\
    \x01\x11\x00\x04\x00\x00\x00\x00\x00\x00\x00\x01\x00\x00\x00\x48\x00\x00\x00\x00\
    \x01\x17\x00\x04\x00\x00\x00\x00\x00\x00\x00\x01\x00\x00\x00\x04\x00\x00\x00\x00\
    \x00\x00\x00\x00\x00\x00\x00\x00\
    \x01\x02\x03\x04";

/// Its header's offset, and the copy of its directory.
const BIG_HEADER: &[u8] =
    b"MM\x00\x2B\x00\x08\x00\x00\x00\x00\x00\x00\x00\x00\x00\x4C\x00\x00\x00\x00\x00\x00\x00\x02";

const BIG_COPY: &[u8] = b"\x01\x02\x03\x04\
    \x00\x00\x00\x00\x00\x00\x00\x03\
    \x01\x11\x00\x04\x00\x00\x00\x00\x00\x00\x00\x01\x00\x00\x00\x48\x00\x00\x00\x00\
    \x01\x17\x00\x04\x00\x00\x00\x00\x00\x00\x00\x01\x00\x00\x00\x04\x00\x00\x00\x00\
    \x02\xBC\x00\x01\x00\x00\x00\x00\x00\x00\x09\x48\x00\x00\x00\x00\x00\x00\x00\x98\
    \x00\x00\x00\x00\x00\x00\x00\x00";

#[test]
fn a_big_directory_is_copied(rt: HostRuntime) -> Result<(), Fail> {
    let alloc = rt.alloc();
    let mut new = Vec::from_slice(alloc, BIG_HEADER)?;
    new.extend_from_slice(BIG_STRIP.get(24..72).unwrap_or(b""))?;
    new.extend_from_slice(BIG_COPY)?;
    new.extend_from_slice(packet(alloc, PHOTO, 2048, "w")?.as_slice())?;
    let ran = set(alloc, BIG_STRIP)?;
    assert!(rt; ran.ended("relocated 76 2528\n", "") && ran.wrote(new.as_slice()));
    assert!(rt; ran.shows(alloc, LINES)?);
    Ok(())
}

/// A first directory of as many entries as a directory may have.
fn full_directory(alloc: Global) -> Result<Vec<u8>, AllocError> {
    let mut file = Vec::from_slice(alloc, b"MM\x00\x2A\x00\x00\x00\x08\xFF\xFF")?;
    for _ in 0..65_535 {
        file.extend_from_slice(b"\x01\x00\x00\x01\x00\x00\x00\x01\x00\x00\x00\x00")?;
    }
    file.extend_from_slice(b"\x00\x00\x00\x00")?;
    Ok(file)
}

/// The same of a BigTIFF file, whose count of entries could tell more.
fn full_big_directory(alloc: Global) -> Result<Vec<u8>, AllocError> {
    let mut file = Vec::from_slice(
        alloc,
        b"MM\x00\x2B\x00\x08\x00\x00\x00\x00\x00\x00\x00\x00\x00\x10\x00\x00\x00\x00\x00\x00\xFF\xFF",
    )?;
    for _ in 0..65_535 {
        file.extend_from_slice(
            b"\x01\x00\x00\x01\x00\x00\x00\x00\x00\x00\x00\x01\x00\x00\x00\x00\x00\x00\x00\x00",
        )?;
    }
    file.extend_from_slice(b"\x00\x00\x00\x00\x00\x00\x00\x00")?;
    Ok(file)
}

#[test]
fn a_directory_without_room_is_refused(rt: HostRuntime) -> Result<(), Fail> {
    let alloc = rt.alloc();
    for file in [full_directory(alloc)?, full_big_directory(alloc)?] {
        let ran = run_moving(alloc, &SET, file.as_slice(), b"", SOUND, 65_536)?;
        assert!(rt; ran.ended("", "refused TiffLimit file 0 65536 65535\n") && ran.wrote_none());
    }
    Ok(())
}

/// The packet would end behind the last place that an offset of 32 bits tells, or behind the longest file.
#[test]
fn a_file_that_would_be_too_long_is_refused(rt: HostRuntime) -> Result<(), Fail> {
    let alloc = rt.alloc();
    let classic = run_length(alloc, &SET, &strip(8), 4_294_967_200)?;
    let line = "refused TiffLimit file 0 4294969618 4294967295\n";
    assert!(rt; classic.ended("", line));
    let big = run_length(alloc, &SET, BIG_STRIP, 1_099_511_627_776)?;
    let line = "refused OutLimit file 0 1099511630228 1099511627776\n";
    assert!(rt; big.ended("", line));
    Ok(())
}

#[test]
fn a_failure_leaves_a_beginning_of_the_moved_image(rt: HostRuntime) -> Result<(), Fail> {
    let alloc = rt.alloc();
    assert!(rt; all_failures_told(alloc, &SET, &strip(8), b"")?);
    let file = image(alloc, PHOTO)?;
    let script = with_letters(alloc, b"set dc:source ", 3000)?;
    assert!(rt; all_failures_told(alloc, &APPLY, &file, script.as_slice())?);
    Ok(())
}
