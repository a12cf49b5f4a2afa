//! Runs of `get` and `tree` over one sidecar.
use crate::runs::{both_refuse, run_over};
use crate::{
    BLANKS, EMPTY, NO_DESCRIPTION, PADDED, PHOTO, QUALIFIED, QUALIFIED_LINES, REFERENCED,
    REFERENCED_LINES, TWICE, TYPED, TYPED_LINES, USUAL, USUAL_LINES,
};
use std::alloc::Global;
use std::test::Fail;
use xmp_values::Memory;

const NO_SUCH_PLACE: &str = "refused NoSuchPlace words 2 0 0\n";

const COVERAGE: &str = "dc:coverage struct 1\ndc:coverage/xmp:Label text w\n";

const UNKNOWN_PREFIX: &str = "refused UnknownPrefix words 2 0 0\n";

/// Whether `tree` of this file is done and sends this text.
fn tree_sends(alloc: Global, file: &str, text: &str) -> Result<bool, Memory> {
    Ok(run_over(alloc, &["tree", "a.xmp"], file.as_bytes())?.ended(text, ""))
}

/// Whether `get` of this file ends with this line, and sends this text.
fn get_ends(alloc: Global, file: &str, path: &str, text: &str, line: &str) -> Result<bool, Memory> {
    Ok(run_over(alloc, &["get", "a.xmp", path], file.as_bytes())?.ended(text, line))
}

#[test]
fn tree_shows_the_lines(rt: HostRuntime) -> Result<(), Fail> {
    for (file, text) in [
        (PHOTO, "about \ndc:format text image/jpeg\n"),
        (EMPTY, "about \n"),
        (PADDED, "about \ndc:format text a\n"),
        (QUALIFIED, QUALIFIED_LINES),
        (TYPED, TYPED_LINES),
        (USUAL, USUAL_LINES),
        (REFERENCED, REFERENCED_LINES),
    ] {
        assert!(rt; tree_sends(rt.alloc(), file, text)?, "{file}");
    }
    Ok(())
}

#[test]
fn get_shows_the_value_at_a_path(rt: HostRuntime) -> Result<(), Fail> {
    for (file, path, text) in [
        (PHOTO, "dc:format", "image/jpeg\n"),
        (PADDED, "dc:format", "a\n"),
        (BLANKS, "dc:source", "a b\nc\n"),
        (QUALIFIED, "dc:source", "u\n"),
        (QUALIFIED, "dc:relation", "\n"),
        (REFERENCED, "a:three", "3\n"),
        (USUAL, "dc:title[fr]", "Mer\n"),
        (USUAL, "xmpMM:History[1]/stEvt:action", "saved\n"),
        (QUALIFIED, "dc:coverage", COVERAGE),
        (QUALIFIED, "dc:format/?xmp:Label", "w\n"),
    ] {
        assert!(rt; get_ends(rt.alloc(), file, path, text, "")?, "{path}");
    }
    Ok(())
}

#[test]
fn get_refuses_other_paths(rt: HostRuntime) -> Result<(), Fail> {
    for (file, path, line) in [
        (PHOTO, "dc:", "refused BadPath words 2 0 0\n"),
        (PHOTO, "dc:title", NO_SUCH_PLACE),
        (QUALIFIED, "xmp:Label", NO_SUCH_PLACE),
        (QUALIFIED, "none:Label", UNKNOWN_PREFIX),
        (QUALIFIED, "rdf:type", "refused Reserved words 2 0 0\n"),
        (REFERENCED, "b:three", UNKNOWN_PREFIX),
    ] {
        assert!(rt; get_ends(rt.alloc(), file, path, "", line)?, "{path}");
    }
    Ok(())
}

#[test]
fn get_and_tree_refuse_by_the_first_fault(rt: HostRuntime) -> Result<(), Fail> {
    for (file, line) in [
        ("<a>]]></a>", "refused BadChar main 3 0 0\n"),
        ("<a/>\0\n", "refused BadChar main 4 0 0\n"),
        (
            "<a b=\"1\" b=\"2\"/>",
            "refused TwiceAttribute main 0 0 0\n",
        ),
        ("<a>&copy;</a>", "refused BadReference main 3 0 0\n"),
        ("<a>", "refused Unfinished main 3 0 0\n"),
        ("<a/><b/>", "refused OutsideRoot main 4 0 0\n"),
        ("\u{FEFF}<a>&#0;</a>", "refused BadReference main 6 0 0\n"),
        ("<a><b></a>", "refused Mismatch main 6 0 0\n"),
        (NO_DESCRIPTION, "refused NotDescription main 65 0 0\n"),
        (TWICE, "refused Twice main 65 0 0\n"),
    ] {
        assert!(rt; both_refuse(rt.alloc(), file.as_bytes(), line)?, "{file}");
    }
    let utf_16 = "refused Utf16 main 0 0 0\n";
    assert!(rt; both_refuse(rt.alloc(), b"\xFF\xFE<\x00", utf_16)?);
    Ok(())
}
