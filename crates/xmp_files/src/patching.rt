//! Changing a file in its place.
ghost use Rattle.std.specs.Prelude.{◌≡◌, Some};
ghost use Rattle.std.specs.FinMap.{get};
ghost use Rattle.xmp_files.specs.Loads.{IsOfSize};
ghost use Rattle.xmp_files.specs.Patching.{FileIsPatched, IsPatchPlan, PatchCall};

use crate::held::Held;
use crate::laws::file_is_patched;
use crate::plans::Planned;
use packet_exchange::exchange_packet;
use xmp_base::{Desk, Failed};

/// Exchanges the packet of a file for that of a plan, in its place. The plan was made for `held`, without
/// relocation and without a digest, and `name` is the file that was loaded. It takes no memory.
///
/// # Errors
/// `Failed` after a failure that the desk counted. The packet is then the old one, the new one, or one that
/// begins with another byte than `<`, and all other bytes are the old ones.
pub fn patch<'p, D: Desk>(
    desk: &mut D,
    held: &'p Held,
    plan: &'p Planned,
    name: &str,
) -> Result<(), Failed>
    requires known { get (D.state desk.old).lens name.now ≡ Some held.now.size }
    requires lies { IsOfSize held.now.size held.now }
    requires planned { IsPatchPlan held.now plan.now.plan }
    // what is left in the place of the payload, however this ends, is read as the old tree, as the new one, or is refused
    ensures whole { FileIsPatched }
    ensures call { PatchCall (D.state desk.old) (D.state desk.new) name.now held.now.payload plan.now.plan result }
{
    // The payload ends within the file, whose length is a number of 64 bits.
    let _ = held.size();
    file_is_patched();
    let at = held.payload_place();
    match (held.payload(), plan.new_payload()) {
        (Some(old), Some(new)) => exchange_packet(desk, name, at, old, new),
        _ => Ok(()),
    }
}
