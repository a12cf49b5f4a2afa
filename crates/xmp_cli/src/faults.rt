//! The refusals of this layer.
ghost use Rattle.std.specs.Prelude.{◌≡◌};
ghost use Rattle.xmp_cli.specs.Order.{no_such_place, path_fault};
ghost use Rattle.xmp_cli.specs.Edits.{no_script, over_script};
ghost use Rattle.xmp_cli.specs.EditSteps.{ended_by};

use crate::edits::SCRIPT_LIMIT;
use crate::status::Status;
use xmp_files::no_file;
use xmp_values::{Fault, FileStop, Part, Rule};

/// A rule that PATH breaks, the second word after the command.
pub fn path_fault(rule: Rule) -> Fault
    ensures { result ≡ path_fault rule }
{
    Fault::at(rule, Part::Words, 2)
}

/// No value is at PATH.
pub fn no_such_place() -> Fault
    ensures { result ≡ no_such_place }
{
    Fault::at(Rule::NoSuchPlace, Part::Words, 2)
}

/// SCRIPT isn't there.
pub fn no_script() -> Fault
    ensures { result ≡ no_script }
{
    Fault::at(Rule::NoFile, Part::Script, 0)
}

/// SCRIPT is longer than its limit.
pub fn over_script(size: u64) -> Fault
    ensures { result ≡ over_script size }
{
    Fault {
        x: size,
        y: SCRIPT_LIMIT,
        ..Fault::at(Rule::ScriptLimit, Part::Script, 0)
    }
}

/// How a run ends where FILE gives nothing.
pub fn stopped(stop: FileStop) -> Status
    ensures { result ≡ ended_by stop }
{
    match stop {
        FileStop::Absent => Status::Refused(no_file()),
        FileStop::Fault(fault) => Status::Refused(fault),
        FileStop::Device => Status::Device,
        FileStop::Memory => Status::Memory,
    }
}
