//! `set FILE OUT PATH VALUE`, `apply FILE OUT SCRIPT` and `patch FILE SCRIPT`: a file's tree is edited, and OUT
//! written, or FILE changed inside its packet.
ghost use Rattle.std.specs.Prelude.{◌≡◌, Ok, Some};
ghost use Rattle.std.specs.FinMap.{get};
ghost use Rattle.xmp_base.specs.Device.{Told};
ghost use Rattle.xmp_files.specs.Loading.{IsLoaded};
ghost use Rattle.xmp_files.specs.Loads.{IsOfSize};
ghost use Rattle.xmp_cli.specs.EditSteps.{source, command_of, is_inside, IsApart, IsElsewhere, IsScriptPlan, Placed, Finished};
ghost use Rattle.xmp_cli.specs.Run.{RunCall, Refuses};

use crate::edits::{Edits, plan_of};
use crate::faults::stopped;
use crate::reports::report_of;
use crate::sending::send;
use crate::status::Status;
use std::alloc::Global;
use xmp_base::{Desk, Failed, Sink};
use xmp_files::{Held, Need, OpenStop, Planned, emit, load, patch, read_file};

/// Writes OUT, or exchanges the packet of the file.
fn place<D: Desk>(
    desk: &mut D,
    held: &Held,
    planned: &Planned,
    file: &str,
    edits: Edits<'_>,
) -> Result<(), Failed>
    requires loaded { Told (D.state desk.old).files (λ files. IsLoaded held.now.need (get files file.now) (Ok held.now)) }
    requires known { get (D.state desk.old).lens file.now ≡ Some held.now.size }
    requires lies { IsOfSize held.now.size held.now }
    requires planned { IsScriptPlan held.now (is_inside edits) planned.now.plan }
    requires sized { planned.now.size ≡ held.now.size }
    requires elsewhere { IsElsewhere file.now edits }
    ensures call { Placed (D.state desk.old) (D.state desk.new) held.now planned.now.plan file.now edits.entry result }
{
    match edits {
        Edits::Set { out, .. } | Edits::Apply { out, .. } => emit(desk, held, planned, file, out),
        Edits::Patch { .. } => patch(desk, held, planned, file),
    }
}

/// Makes the change of a plan, and then sends the report.
fn finish<D: Desk, O: Sink>(
    desk: &mut D,
    out: &mut O,
    held: &Held,
    planned: &Planned,
    file: &str,
    edits: Edits<'_>,
) -> Result<(), Failed>
    requires loaded { Told (D.state desk.old).files (λ files. IsLoaded held.now.need (get files file.now) (Ok held.now)) }
    requires known { get (D.state desk.old).lens file.now ≡ Some held.now.size }
    requires lies { IsOfSize held.now.size held.now }
    requires planned { IsScriptPlan held.now (is_inside edits) planned.now.plan }
    requires sized { planned.now.size ≡ held.now.size }
    requires elsewhere { IsElsewhere file.now edits }
    ensures call { Finished (D.state desk.old) (D.state desk.new) (O.state out.old) (O.state out.new) held.now planned.now file.now edits.entry result }
{
    let report = report_of(planned);
    place(desk, held, planned, file, edits)?;
    send(out, report.as_str().as_bytes())
}

/// Makes the edits of `file`, in OUT or inside its packet.
pub fn edit<D: Desk, O: Sink>(
    alloc: Global,
    desk: &mut D,
    out: &mut O,
    file: &str,
    edits: Edits<'_>,
) -> Status
    requires apart { IsApart file.now (source edits) }
    requires elsewhere { IsElsewhere file.now edits }
    ensures call { RunCall (Some (command_of file.now edits.entry)) (D.state desk.old) (D.state desk.new) (O.state out.old) (O.state out.new) result }
    ensures refuses { Refuses (Some (command_of file.now edits.entry)) (D.state desk.new) result }
{
    let held = match load(alloc, desk, file, Need::Packet) {
        Ok(held) => held,
        Err(stop) => return stopped(stop),
    };
    let opened = match read_file(alloc, &held) {
        Ok(opened) => opened,
        Err(OpenStop::Fault(fault)) => return Status::Refused(fault),
        Err(OpenStop::Memory) => return Status::Memory,
    };
    let planned = match plan_of(alloc, desk, &held, &opened, edits) {
        Ok(planned) => planned,
        Err(stop) => return stopped(stop),
    };
    match finish(desk, out, &held, &planned, file, edits) {
        Ok(()) => Status::Done,
        Err(Failed) => Status::Device,
    }
}
