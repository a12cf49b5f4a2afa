//! JPEG files that are shown, and those that are refused (ISO 10918-1, annex B).
use crate::PHOTO;
use crate::runs::{run_length, run_over};
use std::alloc::{AllocError, Global};
use std::test::Fail;
use xmp_values::Memory;

const HEADER: &str = "<?xpacket begin=\"\u{FEFF}\" id=\"W5M0MpCehiHzreSzNTczkc9d\"?>\n";

const TRAILER: &str = "<?xpacket end=\"w\"?>";

const LINES: &str = "about \ndc:format text image/jpeg\n";

/// The start of the image, and a segment of 361 bytes with the packet of a tree.
fn front(alloc: Global) -> Result<Vec<u8>, AllocError> {
    let mut file = Vec::from_slice(alloc, &[0xff, 0xd8])?;
    put_segment(&mut file)?;
    Ok(file)
}

fn put_segment(file: &mut Vec<u8>) -> Result<(), AllocError> {
    file.extend_from_slice(&[0xff, 0xe1, 0x01, 0x67])?;
    file.extend_from_slice(b"http://ns.adobe.com/xap/1.0/\0")?;
    file.extend_from_slice(HEADER.as_bytes())?;
    file.extend_from_slice(PHOTO.as_bytes())?;
    file.extend_from_slice(TRAILER.as_bytes())
}

/// A JPEG file of 365 bytes with a packet.
fn photograph(alloc: Global) -> Result<Vec<u8>, AllocError> {
    let mut file = front(alloc)?;
    file.extend_from_slice(&[0xff, 0xd9])?;
    Ok(file)
}

/// The line of a file of `n` bytes of that one.
fn line_of(n: usize) -> &'static str {
    match n {
        0 | 1 => "refused NotKnown file 0 0 0\n",
        2 => "refused NoTail file 2 0 0\n",
        3..=362 => "refused Truncated file 2 0 0\n",
        363 => "refused NoTail file 363 0 0\n",
        364 => "refused Truncated file 363 0 0\n",
        _ => "",
    }
}

/// Whether `tree` of these bytes sends this text and this line.
fn tree_ends(alloc: Global, file: &[u8], text: &str, line: &str) -> Result<bool, Memory> {
    Ok(run_over(alloc, &["tree", "a.xmp"], file)?.ended(text, line))
}

/// Whether `tree` of the first `n` bytes of the file ends as it should.
fn cut_ends(alloc: Global, file: &[u8], n: usize) -> Result<bool, Memory> {
    let text = if n < 365 { "" } else { LINES };
    tree_ends(alloc, &file[..n.min(file.len())], text, line_of(n))
}

#[test]
fn a_photograph_is_shown(rt: HostRuntime) -> Result<(), Fail> {
    let alloc = rt.alloc();
    let file = photograph(alloc)?;
    assert_eq!(rt; file.len(), 365);
    assert!(rt; tree_ends(alloc, file.as_slice(), LINES, "")?);
    assert!(rt; tree_ends(alloc, &[0xff, 0xd8, 0xff, 0xd9], "about \n", "")?);
    Ok(())
}

#[test]
fn a_photograph_that_is_cut_off_is_refused(rt: HostRuntime) -> Result<(), Fail> {
    let alloc = rt.alloc();
    let file = photograph(alloc)?;
    for n in [0, 1, 2, 3, 4, 5, 100, 361, 362, 363, 364, 365] {
        assert!(rt; cut_ends(alloc, file.as_slice(), n)?, "{n}");
    }
    Ok(())
}

#[test]
fn broken_segments_are_refused(rt: HostRuntime) -> Result<(), Fail> {
    let cases: [(&[u8], &str); 3] = [
        (
            b"\xFF\xD8\xFF\x00\x00\x02",
            "refused BadMarker file 2 0 0\n",
        ),
        (
            b"\xFF\xD8\xFF\xE0\x00\x01\xFF\xD9",
            "refused BadLength file 2 0 0\n",
        ),
        (
            b"\xFF\xD8\xFF\xE1\x00\x10",
            "refused Truncated file 2 0 0\n",
        ),
    ];
    for (file, line) in cases {
        assert!(rt; tree_ends(rt.alloc(), file, "", line)?, "{line}");
    }
    Ok(())
}

#[test]
fn a_second_packet_is_refused(rt: HostRuntime) -> Result<(), Fail> {
    let alloc = rt.alloc();
    let mut file = front(alloc)?;
    put_segment(&mut file)?;
    file.extend_from_slice(&[0xff, 0xd9])?;
    let line = "refused TwoPackets file 363 0 0\n";
    assert!(rt; tree_ends(alloc, file.as_slice(), "", line)?);
    Ok(())
}

/// A file of a gibibyte, which is a tail from the packet on.
#[test]
fn the_tail_of_a_long_photograph_is_not_read(rt: HostRuntime) -> Result<(), Fail> {
    let alloc = rt.alloc();
    let mut file = front(alloc)?;
    file.extend_from_slice(&[0xff, 0xda])?;
    let words = ["get", "a.xmp", "dc:format"];
    let ran = run_length(alloc, &words, file.as_slice(), 1_073_741_824)?;
    assert!(rt; ran.ended("image/jpeg\n", ""));
    Ok(())
}
