//! Runs over a file that isn't there, and over devices that fail.
use crate::runs::{Plan, SOUND, is_told, run_words, split};
use std::alloc::Global;
use std::test::Fail;
use xmp_base::{MemoryDesk, ReadStop, read_all};
use xmp_values::Memory;

const NO_FILE: &str = "refused NoFile file 0 0 0\n";

const SIZE_FAILS: Plan = Plan {
    desk: 1,
    out: 0,
    err: 0,
};

/// In the middle of the file.
const READ_FAILS: Plan = Plan {
    desk: 20,
    out: 0,
    err: 0,
};

const OUT_FAILS: Plan = Plan {
    desk: 0,
    out: 1,
    err: 0,
};

const ERR_FAILS: Plan = Plan {
    desk: 0,
    out: 0,
    err: 1,
};

/// Whether the words of a command line end with this line, and send this text.
fn ends(alloc: Global, words: &str, plan: Plan, text: &str, line: &str) -> Result<bool, Memory> {
    let list = split(alloc, words)?;
    Ok(run_words(alloc, &list, plan)?.ended(text, line))
}

#[test]
fn a_file_is_shown_where_there_is_one(rt: HostRuntime) -> Result<(), Fail> {
    for (words, text, line) in [
        ("get photo.xmp dc:format", "image/jpeg\n", ""),
        ("tree photo.xmp", "about \ndc:format text image/jpeg\n", ""),
        ("get none.xmp dc:format", "", NO_FILE),
        ("tree none.xmp", "", NO_FILE),
    ] {
        assert!(rt; ends(rt.alloc(), words, SOUND, text, line)?, "{words}");
    }
    Ok(())
}

#[test]
fn a_failing_device_is_told_and_no_text_sent(rt: HostRuntime) -> Result<(), Fail> {
    for (words, plan) in [
        ("get photo.xmp dc:format", SIZE_FAILS),
        ("get none.xmp dc:format", SIZE_FAILS),
        ("get photo.xmp dc:format", READ_FAILS),
        ("get photo.xmp dc:format", OUT_FAILS),
        ("tree photo.xmp", SIZE_FAILS),
        ("tree none.xmp", SIZE_FAILS),
        ("tree photo.xmp", READ_FAILS),
        ("tree photo.xmp", OUT_FAILS),
    ] {
        assert!(rt; ends(rt.alloc(), words, plan, "", "device\n")?, "{words}");
    }
    Ok(())
}

/// Whether the words of a command line end with the status of this line, which a failing `err`
/// doesn't take, and send this text.
fn ends_unheard(alloc: Global, words: &str, text: &str, line: &str) -> Result<bool, Memory> {
    let list = split(alloc, words)?;
    let found = run_words(alloc, &list, ERR_FAILS)?;
    Ok(is_told(found.status, line) && found.sent(text, ""))
}

#[test]
fn a_failing_err_changes_nothing_else(rt: HostRuntime) -> Result<(), Fail> {
    for (words, text, line) in [
        ("get photo.xmp dc:format", "image/jpeg\n", ""),
        ("get none.xmp dc:format", "", NO_FILE),
    ] {
        assert!(rt; ends_unheard(rt.alloc(), words, text, line)?, "{words}");
    }
    Ok(())
}

#[test]
fn a_file_is_read_up_to_a_limit(rt: HostRuntime) -> Result<(), Fail> {
    let mut desk = MemoryDesk::new(rt.alloc());
    desk.add("five.bin", b"12345")?;
    let found = read_all(rt.alloc(), &mut desk, "five.bin", 4);
    let is_too_large = matches!(found, Err(ReadStop::TooLarge(5)));
    assert!(rt; is_too_large);
    Ok(())
}
