//! JPEG files whose text is extended beyond the main packet, and those whose portions don't give one
//! (Adobe XMP Specification Part 3, section 1.1.3.1).
use crate::runs::run_over;
use std::alloc::{AllocError, Global};
use std::test::Fail;
use xmp_values::Memory;

const NAME: &[u8] = b"0123456789ABCDEF0123456789ABCDEF";

/// The same name with small letters.
const SMALL: &[u8] = b"0123456789abcdef0123456789abcdef";

const OTHER: &[u8] = b"ABCDEF0123456789ABCDEF0123456789";

const MAIN: &str = "<rdf:RDF xmlns:rdf=\"http://www.w3.org/1999/02/22-rdf-syntax-ns#\">\
<rdf:Description xmlns:dc=\"http://purl.org/dc/elements/1.1/\" xmlns:xmpNote=\"http://ns.adobe.com/xmp/note/\">\
<dc:format>image/jpeg</dc:format>\
<xmpNote:HasExtendedXMP>0123456789ABCDEF0123456789ABCDEF</xmpNote:HasExtendedXMP>\
</rdf:Description></rdf:RDF>";

const MORE: &str = "<rdf:RDF xmlns:rdf=\"http://www.w3.org/1999/02/22-rdf-syntax-ns#\">\
<rdf:Description xmlns:dc=\"http://purl.org/dc/elements/1.1/\">\
<dc:source>a</dc:source></rdf:Description></rdf:RDF>";

/// A text with a property that the main packet has too, at its byte 126.
const AGAIN: &str = "<rdf:RDF xmlns:rdf=\"http://www.w3.org/1999/02/22-rdf-syntax-ns#\">\
<rdf:Description xmlns:dc=\"http://purl.org/dc/elements/1.1/\">\
<dc:format>a</dc:format></rdf:Description></rdf:RDF>";

/// FF E1, a length that counts itself, and the payload.
fn put_segment(file: &mut Vec<u8>, payload: &[u8]) -> Result<(), AllocError> {
    let size = (payload.len() as u64).wrapping_add(2).to_be_bytes();
    file.extend_from_slice(&[0xff, 0xe1, size[6], size[7]])?;
    file.extend_from_slice(payload)
}

fn put_portion(
    file: &mut Vec<u8>,
    alloc: Global,
    name: &[u8],
    full: u32,
    offset: u32,
    part: &[u8],
) -> Result<(), AllocError> {
    let mut payload = Vec::from_slice(alloc, b"http://ns.adobe.com/xmp/extension/\0")?;
    payload.extend_from_slice(name)?;
    payload.extend_from_slice(&full.to_be_bytes())?;
    payload.extend_from_slice(&offset.to_be_bytes())?;
    payload.extend_from_slice(part)?;
    put_segment(file, payload.as_slice())
}

/// The start of an image, and a main packet with the note.
fn front(alloc: Global) -> Result<Vec<u8>, AllocError> {
    let mut file = Vec::from_slice(alloc, &[0xff, 0xd8])?;
    let mut payload = Vec::from_slice(alloc, b"http://ns.adobe.com/xap/1.0/\0")?;
    payload.extend_from_slice(MAIN.as_bytes())?;
    put_segment(&mut file, payload.as_slice())?;
    Ok(file)
}

/// Whether `tree` of a file that ends here sends this text and this line.
fn tree_ends(alloc: Global, mut file: Vec<u8>, text: &str, line: &str) -> Result<bool, Memory> {
    file.extend_from_slice(&[0xff, 0xd9])?;
    Ok(run_over(alloc, &["tree", "a.xmp"], file.as_slice())?.ended(text, line))
}

/// A file with a text in two portions, the second first, and a portion of another name between them.
fn in_two(alloc: Global, text: &str) -> Result<Vec<u8>, AllocError> {
    let mut file = front(alloc)?;
    let bytes = text.as_bytes();
    let (first, last) = bytes.split_at(bytes.len().min(100));
    let full = u32::try_from(bytes.len()).unwrap_or(0);
    put_portion(&mut file, alloc, SMALL, full, 100, last)?;
    put_portion(&mut file, alloc, OTHER, 5, 7, b"stray")?;
    put_portion(&mut file, alloc, NAME, full, 0, first)?;
    Ok(file)
}

#[test]
fn portions_are_joined(rt: HostRuntime) -> Result<(), Fail> {
    let alloc = rt.alloc();
    let lines = "about \ndc:format text image/jpeg\ndc:source text a\n";
    assert!(rt; tree_ends(alloc, in_two(alloc, MORE)?, lines, "")?);
    Ok(())
}

#[test]
fn a_note_without_portions_joins_nothing(rt: HostRuntime) -> Result<(), Fail> {
    let alloc = rt.alloc();
    let mut file = front(alloc)?;
    put_portion(&mut file, alloc, OTHER, 5, 7, b"stray")?;
    let lines = "about \ndc:format text image/jpeg\n";
    assert!(rt; tree_ends(alloc, file, lines, "")?);
    Ok(())
}

#[test]
fn a_property_of_both_texts_is_refused(rt: HostRuntime) -> Result<(), Fail> {
    let alloc = rt.alloc();
    let line = "refused Twice extended 126 0 0\n";
    assert!(rt; tree_ends(alloc, in_two(alloc, AGAIN)?, "", line)?);
    Ok(())
}

/// One portion of a full length and 50 bytes, and how `tree` is refused.
fn portion_is_refused(alloc: Global, full: u32, line: &str) -> Result<bool, Memory> {
    let mut file = front(alloc)?;
    put_portion(&mut file, alloc, NAME, full, 0, &[b'a'; 50])?;
    tree_ends(alloc, file, "", line)
}

#[test]
fn portions_that_give_no_text_are_refused(rt: HostRuntime) -> Result<(), Fail> {
    let alloc = rt.alloc();
    let gap = "refused Gap extended 50 0 0\n";
    let long = "refused XmpLimit extended 0 16777217 16777216\n";
    let unread = "refused OutsideRoot extended 0 0 0\n";
    assert!(rt; portion_is_refused(alloc, 100, gap)?);
    assert!(rt; portion_is_refused(alloc, 16_777_217, long)?);
    assert!(rt; portion_is_refused(alloc, 50, unread)?);
    Ok(())
}
