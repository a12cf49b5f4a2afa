use crate::{MemoryDesk, MemorySink, ReadStop, Sink, SparseDesk, read_all};

/// What `read_all` answers over files in memory, over a sparse one, and where a call is planned to fail.
#[test]
fn reads_a_file_within_its_limit(rt: HostRuntime) {
    let alloc = rt.alloc();
    let mut desk = MemoryDesk::new(alloc);
    assert!(rt; desk.add("a.xmp", b"hello").is_ok());
    assert!(rt; desk.fail(8).is_ok());
    desk.cut(2);
    for (name, limit, stop) in [
        ("a.xmp", 4, Some(ReadStop::TooLarge(5))),
        ("a.xmp", 5, None),
        ("none.xmp", 5, Some(ReadStop::Absent)),
        ("a.xmp", 9, Some(ReadStop::Device)),
    ] {
        match read_all(alloc, &mut desk, name, limit) {
            Ok(bytes) => {
                assert!(rt; bytes.as_slice() == "hello".as_bytes());
                assert!(rt; stop.is_none());
            }
            Err(answer) => assert_eq!(rt; Some(answer), stop),
        }
    }

    let Ok(mut sparse) = SparseDesk::new(alloc, "b.jpg", 6) else {
        panic!(rt; "memory");
    };
    assert!(rt; sparse.piece(1, b"abc").is_ok());
    assert!(rt; sparse.piece(3, b"defghi").is_ok());
    match read_all(alloc, &mut sparse, "b.jpg", 6) {
        Ok(bytes) => assert!(rt; bytes.as_slice() == "\0abdef".as_bytes()),
        Err(_) => panic!(rt; "a sparse file is read"),
    }

    let mut sink = MemorySink::new(alloc);
    assert!(rt; sink.fail(2).is_ok());
    for (piece, taken) in [("one ", true), ("two ", false), ("three", true)] {
        assert_eq!(rt; sink.write(piece.as_bytes()).is_ok(), taken);
    }
    assert!(rt; sink.sent() == "one three".as_bytes());
}
