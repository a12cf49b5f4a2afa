//! Files of no kind, of a kind that isn't built yet, and over a limit.
use crate::runs::{NOT_BUILT, both_refuse, run_length};
use std::alloc::Global;
use std::test::Fail;
use xmp_values::Memory;

const NOT_KNOWN: &str = "refused NotKnown file 0 0 0\n";

/// Whole files of each kind that isn't built. Each header, chunk and block has a line.
const FILES: [(&str, &[u8]); 3] = [
    (
        "WebP",
        b"RIFF \x00\x00\x00WEBP\
            VP8X\x0A\x00\x00\x00\x00\x00\x00\x00\x00\x00\x00\x00\x00\x00\
            VP8L\x02\x00\x00\x00\x01\x02",
    ),
    (
        "PSD",
        b"8BPS\x00\x01\x00\x00\x00\x00\x00\x00\x00\x00\x00\x00\x00\x00\x00\x00\x00\x00\x00\x00\x00\x00\
            \x00\x00\x00\x00\
            \x00\x00\x00\x00\
            \x01\x02\x03\x04\x05\x06",
    ),
    (
        "PSB",
        b"8BPS\x00\x02\x00\x00\x00\x00\x00\x00\x00\x00\x00\x00\x00\x00\x00\x00\x00\x00\x00\x00\x00\x00\
            \x00\x00\x00\x00\
            \x00\x00\x00\x00\
            \x01\x02\x03\x04\x05\x06",
    ),
];

#[test]
fn kinds_that_are_not_built_are_refused(rt: HostRuntime) -> Result<(), Fail> {
    for (kind, file) in FILES {
        assert!(rt; both_refuse(rt.alloc(), file, NOT_BUILT)?, "{kind}");
    }
    Ok(())
}

#[test]
fn files_of_no_kind_are_refused(rt: HostRuntime) -> Result<(), Fail> {
    for file in ["", "hello"] {
        assert!(rt;
            both_refuse(rt.alloc(), file.as_bytes(), NOT_KNOWN)?,
            "{file}"
        );
    }
    Ok(())
}

/// Whether `get` and `tree` of a file of this length, which begins so and is zeros after that,
/// both end with this line, and send no text.
fn both_refuse_length(
    alloc: Global,
    front: &[u8],
    length: u64,
    line: &str,
) -> Result<bool, Memory> {
    let value = run_length(alloc, &["get", "a.xmp", "dc:format"], front, length)?;
    let tree = run_length(alloc, &["tree", "a.xmp"], front, length)?;
    Ok(value.ended("", line) && tree.ended("", line))
}

/// The limit of a file comes before its kind, and its kind before the limit of a packet.
#[test]
fn a_long_file_is_refused_by_its_length(rt: HostRuntime) -> Result<(), Fail> {
    let over_file = "refused FileLimit file 0 1099511627777 1099511627776\n";
    let over_packet = "refused XmpLimit main 0 16777217 16777216\n";
    let cases: [(&[u8], u64, &str); 5] = [
        (b"<", 1_099_511_627_777, over_file),
        (b"", 1_099_511_627_777, over_file),
        (b"", 1_099_511_627_776, NOT_KNOWN),
        (b"<", 16_777_217, over_packet),
        (
            b"MM\x00\x2A",
            16_777_217,
            "refused DirectoryOut file 0 0 0\n",
        ),
    ];
    for (front, length, line) in cases {
        let is_refused = both_refuse_length(rt.alloc(), front, length, line)?;
        assert!(rt; is_refused, "{length}: {line}");
    }
    Ok(())
}

/// The longest packet is read, and its text is judged: without the zeros it is `<`.
#[test]
fn the_longest_packet_is_read(rt: HostRuntime) -> Result<(), Fail> {
    let path = ["get", "a.xmp", "dc:format"];
    let ran = run_length(rt.alloc(), &path, b"<", 16_777_216)?;
    assert!(rt; ran.ended("", "refused BadTag main 0 0 0\n"));
    Ok(())
}
