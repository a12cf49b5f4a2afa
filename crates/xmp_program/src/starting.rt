//! The start of the program.
use crate::exit::exit_code;
use std::env;
use std::env::Env;
use std::io::ErrorKind;
use std::process::ExitCode;
use xmp_base::{FileDesk, StdSink};
use xmp_cli::{Status, run};
use xmp_values::{Memory, Words};

/// The words after the program's name. Arguments that aren't UTF-8 are no words.
pub fn words_of(rt: &(impl Env + AllocGlobal)) -> Result<Words, Memory> {
    let mut words = Words::new(rt.alloc());
    let arguments = match env::args(rt) {
        Ok(arguments) => arguments,
        Err(error) if error.kind() == ErrorKind::OutOfMemory => return Err(Memory),
        Err(_) => return Ok(words),
    };
    for argument in arguments.skip(1) {
        words.push(argument.as_str())?;
    }
    Ok(words)
}

/// Memory was wanted for the words or for their files.
fn out_of_memory(rt: &impl Eprint) -> ExitCode {
    let _ = rt.eprintln("memory");
    exit_code(Status::Memory)
}

/// Runs the command that the arguments name, on real files and the standard streams.
pub fn start(rt: &HostRuntime) -> ExitCode {
    let Ok(words) = words_of(rt) else {
        return out_of_memory(rt);
    };
    let Ok(mut desk) = FileDesk::new(rt, rt.alloc(), &words) else {
        return out_of_memory(rt);
    };
    let mut out = StdSink::new(rt.stdout());
    let mut err = StdSink::new(rt.stderr());
    exit_code(run(rt.alloc(), &words, &mut desk, &mut out, &mut err))
}
