//! The program `xmp` once more. Its stored run is refused: it ends with 3 and shows nothing.
#![tactic(auto)]

use std::process::ExitCode;
use xmp_program::start;

fn main(rt: HostRuntime) -> ExitCode {
    start(&rt)
}
