//! What the writer writes, the reader reads as the same tree.
use crate::made_trees::{Numbers, made_tree};
use crate::{PHOTO, QUALIFIED, REFERENCED, TYPED, USUAL};
use std::alloc::Global;
use std::test::Fail;
use xmp_packets::Packet;
use xmp_rdf::{Meaning, merge, tree_of};
use xmp_tree::{Tree, equal};
use xmp_values::{Digits, Hints, Memory};
use xmp_write::{Form, Prefixes, measure, packet_into, write_into};
use xmp_xml::read;

/// The digits of a note.
const DIGITS: &str = "0123456789ABCDEF0123456789ABCDEF";

/// The bytes of a packet's header and trailer.
const WRAPPER: u64 = 73;

/// Longer texts aren't made.
const LONGEST: u64 = 1_000_000;

/// The text of a tree in a form; or its packet with so many bytes of padding.
fn written(
    alloc: Global,
    tree: &Tree<'_>,
    hints: &Hints,
    form: &Form,
    padding: Option<u64>,
) -> Result<Vec<u8>, Memory> {
    if form.first > tree.props.len() || form.count > tree.props.len() - form.first {
        return Ok(Vec::new(alloc));
    }
    let prefixes = Prefixes::of(alloc, tree, hints, form)?;
    let len = measure(tree, &prefixes, form);
    if len > LONGEST {
        return Ok(Vec::new(alloc));
    }
    match padding {
        Some(padding) => {
            let padding = padding.min(LONGEST);
            let mut packet = vec![in alloc; 0; (len + WRAPPER + padding) as usize]?;
            packet_into(tree, &prefixes, form, packet.as_mut_slice());
            Ok(packet)
        }
        None => {
            let mut text = vec![in alloc; 0; len as usize]?;
            write_into(tree, &prefixes, form, text.as_mut_slice());
            Ok(text)
        }
    }
}

/// What a text means, if it has a document that breaks no rule.
fn meaning<'p>(alloc: Global, text: &'p [u8]) -> Option<Meaning<'p>> {
    match read(alloc, text) {
        Ok(doc) => tree_of(alloc, doc).ok(),
        Err(_) => None,
    }
}

/// Whether the packet of a tree may be written in its place, and means the tree without a note.
fn reads_back(alloc: Global, tree: &Tree<'_>, hints: &Hints, padding: u64) -> Result<bool, Memory> {
    let packet = written(alloc, tree, hints, &Form::whole(tree), Some(padding))?;
    let info = Packet::of(packet.as_slice());
    match meaning(alloc, packet.as_slice()) {
        Some(meaning) => Ok(
            info.writable
                && info.text_len == packet.len()
                && meaning.note.is_none()
                && equal(&meaning.tree, tree),
        ),
        None => Ok(false),
    }
}

/// Whether a packet with a note and the text of the rest mean two meanings that merge to one with this tree.
fn means_whole<'p>(alloc: Global, packet: &'p [u8], text: &'p [u8], tree: &Tree<'_>) -> bool {
    let Some(main) = meaning(alloc, packet) else {
        return false;
    };
    let Some(more) = meaning(alloc, text) else {
        return false;
    };
    let noted = main.note.is_some();
    match merge(alloc, main, more) {
        Ok(merged) => noted && equal(&merged.tree, tree),
        Err(_) => false,
    }
}

/// Whether a tree that is written as two texts, cut after so many properties, is merged again.
fn merges_again(
    alloc: Global,
    tree: &Tree<'_>,
    hints: &Hints,
    count: usize,
) -> Result<bool, Memory> {
    let count = count.min(tree.props.len());
    let front = Form {
        first: 0,
        count,
        note: Digits::read(DIGITS.as_bytes()),
    };
    let rest = Form {
        first: count,
        count: tree.props.len() - count,
        note: None,
    };
    let packet = written(alloc, tree, hints, &front, Some(0))?;
    let text = written(alloc, tree, hints, &rest, None)?;
    Ok(means_whole(alloc, packet.as_slice(), text.as_slice(), tree))
}

/// How many of the trees of these numbers are well-formed, or None where one doesn't read back.
fn made_again(alloc: Global, count: u32) -> Result<Option<u32>, Memory> {
    let mut numbers = Numbers::from(1);
    let hints = Hints::new(alloc);
    let mut formed = 0_u32;
    for _ in 0..count {
        if let Some(tree) = made_tree(alloc, &mut numbers)? {
            let cut = numbers.below(8);
            let padding = numbers.below(250) as u64;
            if !reads_back(alloc, &tree, &hints, padding)?
                || !merges_again(alloc, &tree, &hints, cut)?
            {
                return Ok(None);
            }
            formed = formed.saturating_add(1);
        }
    }
    Ok(Some(formed))
}

/// Whether a file's tree, written with the file's hints, reads back.
fn file_again(alloc: Global, file: &str) -> Result<bool, Memory> {
    match meaning(alloc, file.as_bytes()) {
        Some(meaning) => Ok(
            reads_back(alloc, &meaning.tree, &meaning.hints, 2048)?
                && merges_again(alloc, &meaning.tree, &meaning.hints, 1)?,
        ),
        None => Ok(false),
    }
}

#[test]
fn files_read_back_to_their_trees(rt: HostRuntime) -> Result<(), Fail> {
    for file in [PHOTO, QUALIFIED, TYPED, USUAL, REFERENCED] {
        assert!(rt; file_again(rt.alloc(), file)?, "{file}");
    }
    Ok(())
}

#[test]
fn made_trees_read_back(rt: HostRuntime) -> Result<(), Fail> {
    let formed = made_again(rt.alloc(), 3_000)?;
    assert!(rt; formed.is_some_and(|formed| formed > 1_000), "{formed:?}");
    Ok(())
}
