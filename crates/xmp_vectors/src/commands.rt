//! Words that are no command, and commands that aren't built yet.
use crate::runs::{NOT_BUILT, SOUND, run_words, split};
use std::alloc::Global;
use std::test::Fail;
use xmp_values::Memory;

const USAGE: &str =
    "usage: xmp get FILE PATH | tree FILE | set FILE OUT PATH VALUE | apply FILE OUT SCRIPT | patch FILE SCRIPT | reconcile FILE OUT | check FILE | demo NUMBER | sync FILE OUT\n";

/// Whether the words of a command line end with this line, and send no text.
fn ends(alloc: Global, words: &str, line: &str) -> Result<bool, Memory> {
    let list = split(alloc, words)?;
    Ok(run_words(alloc, &list, SOUND)?.ended("", line))
}

#[test]
fn commands_that_are_not_built_are_refused(rt: HostRuntime) -> Result<(), Fail> {
    for words in [
        "reconcile a.xmp b.xmp",
        "check none.xmp",
        "demo 1",
        "demo 5000",
        "sync a.xmp b.xmp",
    ] {
        assert!(rt; ends(rt.alloc(), words, NOT_BUILT)?, "{words}");
    }
    Ok(())
}

#[test]
fn other_words_are_no_command(rt: HostRuntime) -> Result<(), Fail> {
    for words in [
        "",
        "get",
        "get a.xmp",
        "get a.xmp dc:format x",
        "Get a.xmp dc:format",
        "frob a.xmp",
        "tree",
        "tree a.xmp b.xmp",
        "set a.jpg a.jpg dc:format x",
        "set a.jpg b.jpg dc:format",
        "set a.jpg b.jpg dc:format x y",
        "apply a.xmp a.xmp script",
        "apply a.xmp b.xmp a.xmp",
        "apply a.xmp b.xmp b.xmp",
        "patch a.xmp a.xmp",
        "reconcile a.xmp a.xmp",
        "sync a.xmp a.xmp",
        "demo 0",
        "demo 01",
        "demo 5001",
        "demo 65537",
        "demo +5",
        "demo 5x",
        "demo ",
    ] {
        assert!(rt; ends(rt.alloc(), words, USAGE)?, "{words}");
    }
    assert!(rt; run_words(rt.alloc(), &[], SOUND)?.ended("", USAGE));
    Ok(())
}
