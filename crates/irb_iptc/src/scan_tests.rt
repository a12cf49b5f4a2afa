//! Lists in a range of a file.
use crate::{Resources, ScanStop};
use std::alloc::Global;
use std::test::Fail;
use xmp_base::{Desk, FileSpan, MemoryDesk};

/// The front of a Photoshop file, the length of its resources, and these: a block 1028 of a keyword
/// `cat`, 1061 of 16 zero bytes, 1060 of an odd number of bytes; four bytes that end the list; and
/// what follows.
const FILE: &[u8] = b"8BPS\0\x01\0\0\0\0\0\0\0\0\0\0\0\0\0\0\0\0\0\0\0\0\0\0\0\0\0\0\0\x40\
8BIM\x04\x04\0\0\0\0\0\x08\x1c\x02\x19\0\x03cat8BIM\x04\x25\0\0\0\0\0\x10\0\0\0\0\0\0\0\0\0\0\0\0\0\0\0\0\
8BIM\x04\x24\0\0\0\0\0\x01a\0\0\0\0\x008BIM";

/// The list in a range of a file, where the file has that range.
fn scanned<D: Desk>(
    alloc: Global,
    desk: &mut D,
    name: &str,
    at: u64,
    len: u64,
) -> Option<Result<Resources, ScanStop>> {
    let Ok(size) = desk.size(name) else {
        return None;
    };
    if at > size || len > size - at {
        return None;
    }
    Some(Resources::scan(alloc, desk, name, at, len))
}

/// The end of the list in a range of the file, or its fault, where one call of the desk fails.
fn end_of(alloc: Global, at: u64, len: u64, failing: u64) -> Option<Result<u64, ScanStop>> {
    let mut desk = MemoryDesk::new(alloc);
    let Ok(()) = desk.add("a.psd", FILE) else {
        return None;
    };
    let Ok(()) = desk.fail(failing) else {
        return None;
    };
    match scanned(alloc, &mut desk, "a.psd", at, len) {
        Some(Ok(list)) => Some(Ok(list.list_end())),
        Some(Err(stop)) => Some(Err(stop)),
        None => None,
    }
}

/// The data of the first blocks of two ids in the list of the file.
fn spans(alloc: Global) -> Option<(Option<FileSpan>, Option<FileSpan>)> {
    let mut desk = MemoryDesk::new(alloc);
    let Ok(()) = desk.add("a.psd", FILE) else {
        return None;
    };
    match scanned(alloc, &mut desk, "a.psd", 34, 66) {
        Some(Ok(list)) => Some((list.first_at(1060), list.whole_at(1061))),
        _ => None,
    }
}

#[test]
fn lists_of_a_range(rt: HostRuntime) {
    let cases: [(u64, u64, Result<u64, ScanStop>); 6] = [
        (34, 66, Ok(96)),
        // The range ends the list, whatever the file has there.
        (34, 0, Ok(34)),
        (34, 3, Ok(34)),
        (34, 20, Ok(54)),
        (34, 21, Ok(54)),
        (34, 47, Err(ScanStop::Fault(54))),
    ];
    for (at, len, end) in cases {
        assert_eq!(rt; end_of(rt.alloc(), at, len, 0), Some(end), "of {len}");
    }
}

#[test]
fn places_in_the_file(rt: HostRuntime) {
    let first = FileSpan { start: 94, end: 95 };
    let whole = FileSpan { start: 54, end: 82 };
    assert_eq!(rt; spans(rt.alloc()), Some((Some(first), Some(whole))));
}

#[test]
fn each_call_may_fail(rt: HostRuntime) {
    // After the length, three heads each with its size, and the bytes that end the list.
    for failing in 2..9 {
        let end = end_of(rt.alloc(), 34, 66, failing);
        assert_eq!(rt; end, Some(Err(ScanStop::Device)), "at {failing}");
    }
    assert_eq!(rt; end_of(rt.alloc(), 34, 66, 9), Some(Ok(96)));
}
