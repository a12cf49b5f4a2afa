//! Runs of `patch` over a sidecar: the report, the line on `err`, what is written, and each failure in its turn.
use crate::PHOTO;
use crate::editing::{TIFF, packet};
use crate::runs::{Ran, run_over, sink_of, words_of};
use std::alloc::Global;
use std::test::Fail;
use xmp_base::MemoryDesk;
use xmp_cli::run_in_memory;
use xmp_values::Memory;

/// The length of the packet of `PHOTO` without padding.
const LENGTH: u64 = 328;

/// The first place at which that of `TIFF` differs from it.
const FROM: u64 = 249;

const SET_TIFF: &str = "set dc:format image/tiff";

/// How a run of `patch` over `a.xmp` ended, and what it left.
#[derive(Drop)]
pub struct Patched {
    ran: Ran,
    desk: MemoryDesk,
}

impl Patched {
    /// Whether it ended with the status that this line tells, and sent this text and this line.
    pub fn ended(&self, text: &str, line: &str) -> bool {
        self.ran.ended(text, line)
    }

    pub fn file(&self) -> &[u8] {
        self.desk.bytes_of("a.xmp").unwrap_or(b"")
    }

    pub fn wrote_none(&self) -> bool {
        self.desk.wrote_at(0).is_none()
    }

    /// How many bytes were written from the first difference on, one after another. None where the first or
    /// the last write isn't of the first byte, or another write is among them.
    fn writes(&self) -> Option<u64> {
        let Some((0, 1)) = self.desk.wrote_at(0) else {
            return None;
        };
        for inside in 0..200 {
            match self.desk.wrote_at(inside + 1) {
                Some((0, 1)) => {
                    let is_last = self.desk.wrote_at(inside + 2).is_none();
                    return if is_last { Some(inside as u64) } else { None };
                }
                Some((at, 1)) if at == FROM + inside as u64 => {}
                _ => return None,
            }
        }
        None
    }

    /// Whether the file has the old bytes, the new ones, or a closed packet of both, which is refused.
    fn is_whole(&self, alloc: Global, old: &[u8], new: &[u8]) -> Result<bool, Memory> {
        let now = self.file();
        if now == old || now == new {
            return Ok(true);
        }
        let tree = run_over(alloc, &["tree", "a.xmp"], now)?;
        Ok(is_closed(old, new, now) && tree.ended("", "refused NotKnown file 0 0 0\n"))
    }
}

/// Whether a space stands before the new bytes up to some place, and the old ones after it.
fn is_closed(old: &[u8], new: &[u8], now: &[u8]) -> bool {
    now.first() == Some(&b' ')
        && (1..=now.len()).any(|place| {
            now.get(1..place) == new.get(1..place) && now.get(place..) == old.get(place..)
        })
}

/// Patches `a.xmp` of these bytes on a desk that moves one byte a call, and whose call of this number fails.
pub fn patch(alloc: Global, file: &[u8], script: &str, fails: u64) -> Result<Patched, Memory> {
    let words = words_of(alloc, &["patch", "a.xmp", "script"])?;
    let mut desk = MemoryDesk::new(alloc);
    desk.add("a.xmp", file)?;
    desk.add("script", script.as_bytes())?;
    desk.cut(1);
    if fails > 0 {
        desk.fail(fails)?;
    }
    let mut out = sink_of(alloc, 0)?;
    let mut err = sink_of(alloc, 0)?;
    let status = run_in_memory(alloc, &words, &mut desk, &mut out, &mut err);
    Ok(Patched {
        ran: Ran { status, out, err },
        desk,
    })
}

#[test]
fn patch_exchanges_the_packet_after_its_first_byte(rt: HostRuntime) -> Result<(), Fail> {
    let alloc = rt.alloc();
    let old = packet(alloc, PHOTO, 0, "w")?;
    let new = packet(alloc, TIFF, 0, "w")?;
    let ran = patch(alloc, &old, SET_TIFF, 0)?;
    assert!(rt; ran.ran.ended("in-place 328\n", "") && ran.file() == new.as_slice());
    assert_eq!(rt; ran.writes(), Some(LENGTH - FROM));
    Ok(())
}

/// Whether `patch` sends this text and this line, and writes nothing.
fn writes_none(
    alloc: Global,
    file: &[u8],
    script: &str,
    text: &str,
    line: &str,
) -> Result<bool, Memory> {
    let ran = patch(alloc, file, script, 0)?;
    Ok(ran.ran.ended(text, line) && ran.wrote_none())
}

#[test]
fn a_text_that_does_not_fit_needs_relocation(rt: HostRuntime) -> Result<(), Fail> {
    let alloc = rt.alloc();
    for (padding, end, script, text, line) in [
        (0, "w", "", "same 328\n", ""),
        (0, "r", "set dc:format image/jpeg", "same 328\n", ""),
        (
            0,
            "w",
            "set dc:format image/x-raw",
            "",
            "refused NeedsRelocation main 0 329 328\n",
        ),
        (
            100,
            "r",
            SET_TIFF,
            "",
            "refused NeedsRelocation main 0 328 428\n",
        ),
        (0, "w", "frob", "", "refused BadLine script 1 0 0\n"),
    ] {
        let file = packet(alloc, PHOTO, padding, end)?;
        assert!(rt; writes_none(alloc, &file, script, text, line)?, "{script}");
    }
    let bare = "refused NeedsRelocation main 0 328 255\n";
    assert!(rt; writes_none(alloc, PHOTO.as_bytes(), SET_TIFF, "", bare)?);
    Ok(())
}

/// How many calls leave a closed packet where they fail, each of them failing in its turn. None where one
/// ends otherwise than it must.
fn closed_states(alloc: Global, old: &[u8], new: &[u8]) -> Result<Option<u64>, Memory> {
    let mut closed: u64 = 0;
    for fails in 1..600 {
        let ran = patch(alloc, old, SET_TIFF, fails)?;
        if ran.ran.ended("in-place 328\n", "") {
            return Ok(Some(closed));
        }
        if !ran.ran.ended("", "device\n") || !ran.is_whole(alloc, old, new)? {
            return Ok(None);
        }
        if ran.file().first() == Some(&b' ') {
            closed = closed.saturating_add(1);
        }
    }
    Ok(None)
}

/// The first write closes the packet, and the last opens it: between them and at the last it stays closed.
#[test]
fn a_patch_that_fails_leaves_the_old_tree_or_a_refusal(rt: HostRuntime) -> Result<(), Fail> {
    let alloc = rt.alloc();
    let old = packet(alloc, PHOTO, 0, "w")?;
    let new = packet(alloc, TIFF, 0, "w")?;
    assert_eq!(rt; closed_states(alloc, &old, &new)?, Some(LENGTH - FROM + 1));
    Ok(())
}
