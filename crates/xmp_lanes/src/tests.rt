//! Runs of every length up to 200, with the byte that stops them at each place.
use super::*;
use std::test::Fail;

/// Whether the runs of so many letters stop at a place where another byte stands.
fn stop_at(letters: &mut [u8; 200], len: usize, at: usize) -> bool {
    if at >= len || len > 200 {
        return false;
    }
    let all = [b'a'; 200];
    letters[at] = b'<';
    let text = plain_run(&letters[..len], Escape::Text) == at;
    let same = same_run(&letters[..len], &all[..len]) == at;
    letters[at] = b'\n';
    let attribute = plain_run(&letters[..len], Escape::Attribute) == at;
    let passed = plain_run(&letters[..len], Escape::Text) == len;
    letters[at] = b'a';
    text && same && attribute && passed
}

/// The same of white space, where a letter stops it.
fn blank_stops_at(blanks: &mut [u8; 200], len: usize, at: usize) -> bool {
    if at >= len || len > 200 {
        return false;
    }
    blanks[at] = b'x';
    let blank = blank_run(&blanks[..len]) == at;
    blanks[at] = b'\r';
    blank && blank_run(&blanks[..len]) == len
}

#[test]
fn runs_stop_at_each_place(rt: HostRuntime) -> Result<(), Fail> {
    let mut letters = [b'a'; 200];
    let mut blanks = [b' '; 200];
    for len in 0..201 {
        for at in 0..len {
            assert!(rt; stop_at(&mut letters, len, at) && blank_stops_at(&mut blanks, len, at));
        }
    }
    Ok(())
}

#[test]
fn runs_are_the_longest(rt: HostRuntime) -> Result<(), Fail> {
    assert!(rt; plain_run(b"ab<c", Escape::Text) == 2);
    assert!(rt; blank_run(b"  x") == 2);
    assert!(rt; same_run(b"abc", b"abd") == 2);
    assert!(rt;
        plain_run(b"", Escape::Text) == 0 && blank_run(b"") == 0 && same_run(b"", b"a") == 0
    );
    Ok(())
}
