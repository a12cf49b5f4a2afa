//! The words of a command line that isn't the real one.
ghost use Rattle.std.specs.Prelude.{◌≤◌, length, IfOk};

use crate::starting::words_of;
use std::env::{Env, FillError};
use std::test::Fail;

/// A command line of two arguments: the program's name and these bytes.
#[derive(Drop)]
struct Line<'a> {
    argument: &'a [u8],
}

/// Copies a value to the start of a buffer.
fn fill(value: &[u8], buf: &mut [u8]) -> Result<usize, FillError>
    ensures { IfOk result (λ count. count ≤ length buf.new) }
{
    if value.len() > buf.len() {
        return Err(FillError::TooLong);
    }
    buf[..value.len()].copy_from_slice(value);
    Ok(value.len())
}

impl<'a> Env for Line<'a> {
    fn arg(&self, i: usize, buf: &mut [u8]) -> Result<usize, FillError> {
        match i {
            0 => fill(b"xmp", buf),
            1 => fill(self.argument, buf),
            _ => Err(FillError::NotPresent),
        }
    }

    fn var(&self, _name: &str, _buf: &mut [u8]) -> Result<usize, FillError> {
        Err(FillError::NotPresent)
    }

    fn var_at(&self, _i: usize, _buf: &mut [u8]) -> Result<usize, FillError> {
        Err(FillError::NotPresent)
    }
}

#[test]
fn arguments_that_are_not_utf_8_are_no_words(rt: HostRuntime) -> Result<(), Fail> {
    let plain = (Line { argument: b"tree" }, rt.alloc());
    assert_eq!(rt; words_of(&plain)?.get(0), Some("tree"));
    let torn = (
        Line {
            argument: b"tr\xFFee",
        },
        rt.alloc(),
    );
    assert_eq!(rt; words_of(&torn)?.len(), 0);
    Ok(())
}
