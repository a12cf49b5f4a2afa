//! Files that are loaded from devices, and those that are refused.
use std::alloc::{AllocError, Global};
use std::test::Fail;
use xmp_base::{MemoryDesk, SparseDesk};
use xmp_files::{Held, LoadStop, Need, load};
use xmp_values::{Fault, Memory, Part, Place, Rule};

/// Loads a file of these bytes from a desk that fails at a call, or at none.
fn load_failing(
    alloc: Global,
    bytes: &[u8],
    failing: u64,
) -> Result<Result<Held, LoadStop>, Memory> {
    let mut desk = MemoryDesk::new(alloc);
    desk.add("a.xmp", bytes)?;
    desk.cut(5);
    desk.fail(failing)?;
    Ok(load(alloc, &mut desk, "a.xmp", Need::Packet))
}

/// Why a file of these bytes isn't loaded.
fn stop_of(alloc: Global, bytes: &[u8], failing: u64) -> Result<Option<LoadStop>, Memory> {
    Ok(load_failing(alloc, bytes, failing)?.err())
}

/// Why a file of this length, which begins with these bytes and is zeros after them, isn't loaded.
fn stop_of_long(alloc: Global, front: &str, len: u64) -> Result<Option<LoadStop>, Memory> {
    let mut desk = SparseDesk::new(alloc, "a.xmp", len)?;
    desk.piece(0, front.as_bytes())?;
    Ok(load(alloc, &mut desk, "a.xmp", Need::Packet).err())
}

/// Whether a sidecar's payload is the file, and its text so many bytes of it.
fn is_held(alloc: Global, file: &str, text_len: usize) -> Result<bool, Memory> {
    match load_failing(alloc, file.as_bytes(), 0)? {
        Ok(held) => Ok(
            held.payload() == Some(file.as_bytes())
                && held.text() == file.as_bytes().get(..text_len),
        ),
        Err(_) => Ok(false),
    }
}

fn refused(rule: Rule, part: Part, x: u64, y: u64) -> Option<LoadStop> {
    Some(LoadStop::Fault(Fault {
        rule,
        place: Place { part, at: 0 },
        x,
        y,
    }))
}

#[test]
fn sidecars_are_loaded(rt: HostRuntime) -> Result<(), Fail> {
    assert!(rt; is_held(rt.alloc(), "<", 1)?);
    assert!(rt; is_held(rt.alloc(), "\u{FEFF} <a>of some length</a>\n", 26)?);
    assert!(rt; is_held(rt.alloc(), "<a/>\0\n\0\0", 6)?);
    Ok(())
}

#[test]
fn files_are_refused(rt: HostRuntime) -> Result<(), Fail> {
    let alloc = rt.alloc();
    let not_known = refused(Rule::NotKnown, Part::File, 0, 0);
    assert_eq!(rt; stop_of(alloc, b"", 0)?, not_known);
    assert_eq!(rt;
        stop_of(alloc, b"hello, this isn't XML <a/>", 0)?,
        not_known
    );
    let not_built = refused(Rule::NotBuilt, Part::File, 0, 0);
    assert_eq!(rt; stop_of(alloc, b"RIFF\0\0\0\0WEBP", 0)?, not_built);
    let short_header = refused(Rule::ShortHeader, Part::File, 0, 0);
    assert_eq!(rt; stop_of(alloc, b"MM\x00\x2a", 0)?, short_header);
    let mut desk = MemoryDesk::new(alloc);
    assert_eq!(rt;
        load(alloc, &mut desk, "a.xmp", Need::Packet).err(),
        Some(LoadStop::Absent)
    );
    Ok(())
}

#[test]
fn long_files_are_refused(rt: HostRuntime) -> Result<(), Fail> {
    let alloc = rt.alloc();
    let limit = 1_099_511_627_776;
    let over_limit = refused(Rule::FileLimit, Part::File, limit + 1, limit);
    assert_eq!(rt; stop_of_long(alloc, "<", limit + 1)?, over_limit);
    assert_eq!(rt;
        stop_of_long(alloc, "", limit)?,
        refused(Rule::NotKnown, Part::File, 0, 0)
    );
    let packet = 16_777_216;
    let over_packet = refused(Rule::XmpLimit, Part::Main, packet + 1, packet);
    assert_eq!(rt; stop_of_long(alloc, "<", packet + 1)?, over_packet);
    assert_eq!(rt; stop_of_long(alloc, "<", packet)?, None);
    Ok(())
}

#[test]
fn failures_of_the_desk(rt: HostRuntime) -> Result<(), Fail> {
    let alloc = rt.alloc();
    // of 18 bytes, five at a time: one call of the length, four of the kind, four of the payload, and none more
    let file = b"<a>of 18 bytes</a>";
    for call in 1..10 {
        assert_eq!(rt;
            stop_of(alloc, file, call)?,
            Some(LoadStop::Device),
            "{call}"
        );
    }
    assert_eq!(rt; stop_of(alloc, file, 10)?, None);
    Ok(())
}

/// A TIFF file whose one entry, of this tag, tells a value of this many bytes behind the directory.
fn with_value(alloc: Global, tag: u16, count: u32) -> Result<Vec<u8>, AllocError> {
    let mut file = Vec::from_slice(alloc, b"MM\x00\x2A\x00\x00\x00\x08\x00\x01")?;
    file.extend_from_slice(&tag.to_be_bytes())?;
    file.extend_from_slice(b"\x00\x01")?;
    file.extend_from_slice(&count.to_be_bytes())?;
    file.extend_from_slice(b"\x00\x00\x00\x1A\x00\x00\x00\x00")?;
    file.resize(26 + count as usize, 0)?;
    Ok(file)
}

/// How many calls a desk meets while a file of these bytes is loaded.
fn calls_of(alloc: Global, bytes: &[u8]) -> Result<Option<u64>, Memory> {
    for call in 1..200 {
        if stop_of(alloc, bytes, call)? != Some(LoadStop::Device) {
            return Ok(Some(call - 1));
        }
    }
    Ok(None)
}

/// A file whose packet is over its limit meets as many calls as one without a packet, whose value isn't read.
#[test]
fn a_packet_over_its_limit_is_not_read(rt: HostRuntime) -> Result<(), Fail> {
    let alloc = rt.alloc();
    let other = with_value(alloc, 701, 64)?;
    assert_eq!(rt; stop_of(alloc, other.as_slice(), 0)?, None);
    let calls = calls_of(alloc, other.as_slice())?.unwrap_or(0);
    let limit = 16_777_216;
    let long = with_value(alloc, 700, limit + 1)?;
    assert_eq!(rt;
        stop_of(alloc, long.as_slice(), calls)?,
        Some(LoadStop::Device)
    );
    assert_eq!(rt;
        stop_of(alloc, long.as_slice(), calls.saturating_add(1))?,
        refused(Rule::XmpLimit, Part::Main, limit as u64 + 1, limit as u64)
    );
    Ok(())
}
