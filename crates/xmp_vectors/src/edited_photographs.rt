//! JPEG files whose packets are exchanged in their places: by `set` and `apply` in OUT, and by `patch`.
use crate::PHOTO;
use crate::editing::{TIFF, packet};
use crate::patching::patch;
use crate::runs::{Plan, SOUND, run_edit, run_over};
use std::alloc::{AllocError, Global};
use std::test::Fail;
use xmp_values::Memory;

/// Where the packet stands: after the start of the image, the marker with its length, and the signature.
const PLACE: usize = 35;

const EMPTY: &[u8] = b"\xFF\xD8\xFF\xD9";

const SET: [&str; 5] = ["set", "a.xmp", "out", "dc:format", "image/tiff"];

const APPLY: [&str; 4] = ["apply", "a.xmp", "out", "script"];

/// A JPEG file of 365 bytes with the packet of a tree, of 328 bytes.
fn photograph(alloc: Global, text: &str) -> Result<Vec<u8>, AllocError> {
    let mut file = Vec::from_slice(
        alloc,
        b"\xFF\xD8\xFF\xE1\x01\x67http://ns.adobe.com/xap/1.0/\0",
    )?;
    file.extend_from_slice(packet(alloc, text, 0, "w")?.as_slice())?;
    file.extend_from_slice(b"\xFF\xD9")?;
    Ok(file)
}

/// Whether these words end with this report and leave these bytes in OUT.
fn writes(
    alloc: Global,
    words: &[&str],
    file: &[u8],
    report: &str,
    new: &[u8],
) -> Result<bool, Memory> {
    let ran = run_edit(alloc, words, file, b"", SOUND)?;
    Ok(ran.ended(report, "") && ran.wrote(new))
}

#[test]
fn a_packet_that_fits_is_exchanged_in_its_place(rt: HostRuntime) -> Result<(), Fail> {
    let alloc = rt.alloc();
    let old = photograph(alloc, PHOTO)?;
    let new = photograph(alloc, TIFF)?;
    assert!(rt; writes(alloc, &SET, &old, "in-place 365\n", &new)?);
    assert!(rt; writes(alloc, &APPLY, &old, "same 365\n", &old)?);
    assert!(rt; writes(alloc, &APPLY, EMPTY, "same 4\n", EMPTY)?);
    Ok(())
}

/// Whether each call of `set` that fails in its turn is told, and leaves at most a beginning of OUT.
fn all_failures_told(alloc: Global, old: &[u8], new: &[u8]) -> Result<bool, Memory> {
    for desk in 1..200 {
        let ran = run_edit(alloc, &SET, old, b"", Plan { desk, ..SOUND })?;
        if ran.ended("in-place 365\n", "") {
            return Ok(desk > 1);
        }
        if !ran.ended("", "device\n") || !ran.began(new) {
            return Ok(false);
        }
    }
    Ok(false)
}

#[test]
fn a_failure_leaves_a_beginning_of_the_new_photograph(rt: HostRuntime) -> Result<(), Fail> {
    let alloc = rt.alloc();
    let old = photograph(alloc, PHOTO)?;
    let new = photograph(alloc, TIFF)?;
    assert!(rt; all_failures_told(alloc, &old, &new)?);
    Ok(())
}

/// Whether a file has the bytes of another one but for its packet, which is closed by a space and refused.
fn is_closed(alloc: Global, old: &[u8], now: &[u8]) -> Result<bool, Memory> {
    let tree = run_over(alloc, &["tree", "a.xmp"], now)?;
    Ok(
        now.get(..PLACE) == old.get(..PLACE)
            && now.get(PLACE) == Some(&b' ')
            && now.get(363..) == old.get(363..)
            && tree.ended("", "refused OutsideRoot main 1 0 0\n"),
    )
}

/// How many calls of `patch` leave a closed packet where they fail, each in its turn. None where one leaves
/// anything but that, the old file or the new one.
fn closed_states(alloc: Global, old: &[u8], new: &[u8]) -> Result<Option<u64>, Memory> {
    let mut closed: u64 = 0;
    for fails in 1..800 {
        let ran = patch(alloc, old, "set dc:format image/tiff", fails)?;
        let now = ran.file();
        if ran.ended("in-place 365\n", "") {
            return Ok(if now == new { Some(closed) } else { None });
        }
        if !ran.ended("", "device\n") {
            return Ok(None);
        }
        if now != old && now != new {
            if !is_closed(alloc, old, now)? {
                return Ok(None);
            }
            closed = closed.saturating_add(1);
        }
    }
    Ok(None)
}

/// The first difference stands at 249 of 328 bytes: from the second write on the packet is closed.
#[test]
fn a_patch_of_a_photograph_is_whole_or_closed(rt: HostRuntime) -> Result<(), Fail> {
    let alloc = rt.alloc();
    let old = photograph(alloc, PHOTO)?;
    let new = photograph(alloc, TIFF)?;
    assert_eq!(rt; closed_states(alloc, &old, &new)?, Some(80));
    Ok(())
}

#[test]
fn a_patch_that_does_not_fit_a_photograph_is_refused(rt: HostRuntime) -> Result<(), Fail> {
    let alloc = rt.alloc();
    let old = photograph(alloc, PHOTO)?;
    for (file, line) in [
        (old.as_slice(), "refused NeedsRelocation main 0 329 328\n"),
        (EMPTY, "refused NeedsRelocation main 0 329 0\n"),
    ] {
        let ran = patch(alloc, file, "set dc:format image/x-raw", 0)?;
        assert!(rt; ran.ended("", line) && ran.wrote_none(), "{line}");
    }
    Ok(())
}
