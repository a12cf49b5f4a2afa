//! The packet of a file exchanged in its place, so that no failure leaves a mixture of two texts.
//!
//! While bytes are exchanged, the packet doesn't begin with `<`: a reader that comes upon it then
//! refuses it. It promises the old packet, the new one or such a closed one after a failure, and
//! the new one else; all other bytes stay. It takes no memory. It stands on the devices of
//! `xmp_base` and on the runs of `xmp_lanes`. A packet's first bytes: ISO 16684-1, 7.3.2.
#![tactic(auto)]

#[cfg(test)]
mod tests;

ghost use Rattle.std.specs.Prelude.{◌≡◌, ◌+◌, ◌≤◌, ◌<◌, ◌^◌, length, take, [], ◌∷◌, IsTrue};
ghost use Rattle.xmp_base.specs.Device.{is_known, len_of};
ghost use Rattle.packet_exchange.specs.Closing.{is_open, ExchangeCall};
ghost use Rattle.xmp_lanes.specs.Runs.{same_run as first_difference};

use xmp_base::{Desk, Failed, put_inside};
use xmp_lanes::same_run;

/// Exchanges the payload at `at`, whose bytes are those of `old`, for one that is as long. Both begin
/// with `<?`. A space stands in place of the `<` while the bytes from the first difference on are
/// written. Where there is none, nothing is written.
///
/// # Errors
/// `Failed` after a failure that the desk counted. The payload is then the old one, the new one, or
/// one that begins with another byte than `<` and then `?`.
pub fn exchange_packet<D: Desk>(
    desk: &mut D,
    name: &str,
    at: u64,
    old: &[u8],
    new: &[u8],
) -> Result<(), Failed>
    requires known { IsTrue (is_known (D.state desk.old) name.now) }
    requires within { at + length new.now ≤ len_of (D.state desk.old) name.now }
    requires fits { at + length new.now < 2 ^ 64 }
    requires as_long { length old.now ≡ length new.now }
    requires old_opens { IsTrue (is_open old.now) }
    requires new_opens { IsTrue (is_open new.now) }
    ensures call { ExchangeCall (D.state desk.old) (D.state desk.new) name.now at old.now new.now result }
{
    let from = first_difference(old, new);
    if from == new.len() {
        return Ok(());
    }
    put_inside(desk, name, at, b" ")?;
    put_inside(desk, name, at + from as u64, &new[from..])?;
    put_inside(desk, name, at, b"<")
}

/// The first place at which two payloads differ, or the length of the shorter one.
#[tactic(auto, using(crate::proofs::Closing::front_within))]
fn first_difference(old: &[u8], new: &[u8]) -> usize
    ensures is_first { result ≡ first_difference old.now new.now }
    ensures within { result ≤ length new.now }
{
    same_run(old, new)
}
