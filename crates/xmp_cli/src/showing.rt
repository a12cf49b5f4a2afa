//! `get FILE PATH` and `tree FILE`: what a file means is shown.
ghost use Rattle.std.specs.Prelude.{Some};
ghost use Rattle.xmp_cli.specs.Steps.{shows, view_of, IsViewed};
ghost use Rattle.xmp_cli.specs.Run.{RunCall, Refuses};

use crate::sending::send;
use crate::status::Status;
use crate::views::{View, text_of};
use std::alloc::Global;
use xmp_base::{Desk, Failed, Sink};
use xmp_files::{Held, LoadStop, Need, OpenStop, load, no_file, read_file};
use xmp_values::Bytes;

/// What a view shows of what is held of a file.
fn view_text(alloc: Global, held: &Held, view: View<'_>) -> Result<Bytes, OpenStop>
    ensures { IsViewed (view_of view.entry) result held.now }
{
    let opened = read_file(alloc, held)?;
    text_of(alloc, &opened.meaning, view)
}

/// Shows a view of a file.
pub fn show<D: Desk, O: Sink>(
    alloc: Global,
    desk: &mut D,
    out: &mut O,
    file: &str,
    view: View<'_>,
) -> Status
    ensures call { RunCall (Some (shows file.now view.entry)) (D.state desk.old) (D.state desk.new) (O.state out.old) (O.state out.new) result }
    ensures refuses { Refuses (Some (shows file.now view.entry)) (D.state desk.new) result }
{
    let held = match load(alloc, desk, file, Need::Packet) {
        Ok(held) => held,
        Err(LoadStop::Absent) => return Status::Refused(no_file()),
        Err(LoadStop::Fault(fault)) => return Status::Refused(fault),
        Err(LoadStop::Device) => return Status::Device,
        Err(LoadStop::Memory) => return Status::Memory,
    };
    match view_text(alloc, &held, view) {
        Ok(text) => match send(out, text.as_slice()) {
            Ok(()) => Status::Done,
            Err(Failed) => Status::Device,
        },
        Err(OpenStop::Fault(fault)) => Status::Refused(fault),
        Err(OpenStop::Memory) => Status::Memory,
    }
}
