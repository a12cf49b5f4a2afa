// Real files and a writer, which no proof reaches, and a copy on a desk that fails at each call in turn.
ghost use Rattle.std.specs.Prelude.{◌≢◌, ◌<◌, length};

use crate::{
    Bytes, Desk, Failed, FileDesk, FileSpan, Memory, MemoryDesk, Sink, SizeStop, Span, StdSink,
    Words, append, copy_range, put_inside, window,
};
use std::alloc::Global;
use std::io::{ErrorKind, Write};
use std::rt::Files;
use std::test::Fail;
use std::{fs, io};

/// Puts a whole file into one that it creates, in pieces of the buffer's length.
fn copy_file<D: Desk>(desk: &mut D, from: &str, to: &str, buffer: &mut [u8]) -> Result<(), Failed>
    requires apart { from.now ≢ to.now }
    requires some { 0 < length buffer.old }
{
    let Ok(len) = desk.size(from) else {
        return Err(Failed);
    };
    desk.create(to)?;
    copy_range(desk, from, 0, len, to, 0, buffer)
}

/// The bytes of a file from a place on, where it has so many.
fn bytes_at<D: Desk>(
    alloc: Global,
    desk: &mut D,
    name: &str,
    at: u64,
    len: usize,
) -> Option<Bytes> {
    match desk.size(name) {
        Ok(size) if at <= size && len as u64 <= size - at => {
            window(alloc, desk, name, at, len).ok()
        }
        _ => None,
    }
}

/// Puts a piece at the end of a file that isn't long.
fn grow<D: Desk>(desk: &mut D, name: &str, piece: &[u8]) -> Result<(), Failed> {
    match desk.size(name) {
        Ok(len) if len < 1000 => append(desk, name, len, piece),
        _ => Err(Failed),
    }
}

/// Puts a piece inside a file, where there is room for it.
fn put<D: Desk>(desk: &mut D, name: &str, at: u64, piece: &[u8]) -> Result<(), Failed> {
    match desk.size(name) {
        Ok(size) if at <= size && piece.len() as u64 <= size - at => {
            put_inside(desk, name, at, piece)
        }
        _ => Err(Failed),
    }
}

/// A desk of real files, for these names.
fn desk_of<'r, R: Files>(
    rt: &'r R,
    alloc: Global,
    names: &[&str],
) -> Result<FileDesk<'r, R>, Memory> {
    let mut words = Words::new(alloc);
    for name in names {
        words.push(name)?;
    }
    FileDesk::new(rt, alloc, &words)
}

/// A desk on which `from` was copied to `to` until the call of this number failed.
fn copy_failing(alloc: Global, call: u64) -> Result<MemoryDesk, Memory> {
    let mut desk = MemoryDesk::new(alloc);
    desk.add("from", b"0123456789")?;
    desk.fail(call)?;
    let mut buffer = [0; 4];
    let _ = copy_file(&mut desk, "from", "to", &mut buffer);
    Ok(desk)
}

/// The calls are `size`, `create`, and a read and a write for each of three pieces. A write that is
/// planned to fail puts half of its piece first, rounded down.
#[test]
fn copies_until_a_call_fails(rt: HostRuntime) {
    for (call, left) in [
        (2, None),
        (3, Some("")),
        (4, Some("01")),
        (5, Some("0123")),
        (6, Some("012345")),
        (7, Some("01234567")),
        (8, Some("012345678")),
        (9, Some("0123456789")),
    ] {
        match copy_failing(rt.alloc(), call) {
            Ok(desk) => {
                assert!(rt; desk.bytes_of("to") == left.map(|text| text.as_bytes()));
                assert!(rt; desk.bytes_of("from") == Some("0123456789".as_bytes()));
            }
            Err(Memory) => panic!(rt; "memory"),
        }
    }
}

#[test]
fn reaches_real_files(rt: HostRuntime) -> Result<(), Fail> {
    fs::write(&rt, "in.bin", "12345")?;
    fs::write(&rt, "out.bin", "an older text")?;
    // no system has a name of so many letters
    let long = "n".repeat(rt.alloc(), 5000)?;
    let names = ["in.bin", "out.bin", "none.bin", long.as_str()];
    let mut desk = desk_of(&rt, rt.alloc(), &names)?;
    assert!(rt; copy_file(&mut desk, "in.bin", "out.bin", &mut [0; 2]).is_ok());
    for (name, size) in [
        ("in.bin", Ok(5)),
        ("out.bin", Ok(5)),
        ("none.bin", Err(SizeStop::Absent)),
        ("other.bin", Err(SizeStop::Failed)),
        (long.as_str(), Err(SizeStop::Failed)),
    ] {
        assert_eq!(rt; desk.size(name), size);
        let bytes = bytes_at(rt.alloc(), &mut desk, name, 0, 5);
        assert_eq!(rt; bytes.is_some(), size.is_ok());
        assert!(rt; bytes.is_none_or(|bytes| bytes.as_slice() == "12345".as_bytes()));
    }
    fs::remove_file(&rt, "in.bin")?;
    fs::remove_file(&rt, "out.bin")?;
    Ok(())
}

/// One handle is used at one place after another, and twice at one place. A running program is read,
/// which nobody may write, and a file that was opened for reading is written too.
#[test]
fn a_handle_goes_to_its_place(rt: HostRuntime) -> Result<(), Fail> {
    let running = "/proc/self/exe";
    fs::write(&rt, "open.bin", "abcdef")?;
    let mut desk = desk_of(&rt, rt.alloc(), &["open.bin", running])?;
    for (name, at, text) in [
        (running, 1, "ELF"),
        ("open.bin", 3, "def"),
        ("open.bin", 1, "bcd"),
        ("open.bin", 1, "bcd"),
    ] {
        let bytes = bytes_at(rt.alloc(), &mut desk, name, at, 3);
        assert!(rt;
            bytes.is_some_and(|bytes| bytes.as_slice() == text.as_bytes()),
            "{name} at {at}"
        );
    }
    for (at, piece) in [(3, "XY"), (1, "Y"), (1, "Z"), (4, "V")] {
        assert!(rt;
            put(&mut desk, "open.bin", at, piece.as_bytes()).is_ok(),
            "at {at}"
        );
    }
    assert!(rt; grow(&mut desk, "open.bin", b"g").is_ok());
    for (at, text) in [(4, "Vfg"), (0, "aZcXVfg"), (0, "aZcXVfg")] {
        let bytes = bytes_at(rt.alloc(), &mut desk, "open.bin", at, text.len());
        assert!(rt;
            bytes.is_some_and(|bytes| bytes.as_slice() == text.as_bytes()),
            "at {at}"
        );
    }
    fs::remove_file(&rt, "open.bin")?;
    Ok(())
}

/// A writer that takes all and can hand on nothing.
#[derive(Drop)]
struct Stuck;

impl Write for Stuck {
    fn write(&mut self, from: &[u8]) -> io::Result<usize> {
        Ok(from.len())
    }

    fn flush(&mut self) -> io::Result<()> {
        Err(io::Error::from(ErrorKind::BrokenPipe))
    }
}

#[test]
fn hands_a_line_to_a_writer(rt: HostRuntime) {
    let mut bytes = Vec::new(rt.alloc());
    let mut sink = StdSink::new(&mut bytes);
    assert_eq!(rt; sink.write(b"line\n"), Ok(5));
    assert!(rt; bytes.as_slice() == "line\n".as_bytes());
    assert_eq!(rt; StdSink::new(Stuck).write(b"line\n"), Err(Failed));
    assert_eq!(rt; StdSink::new(Stuck).write(b""), Ok(0));
    let span = FileSpan { start: 1, end: 3 };
    assert_eq!(rt; span.within(3), Some(Span { start: 1, end: 3 }));
    assert_eq!(rt; span.within(2), None);
}
