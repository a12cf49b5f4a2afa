//! Sending a text, whole or as far as the sink takes it.
ghost use Rattle.std.specs.Prelude.{length};
ghost use Rattle.xmp_cli.specs.Sending.{SendAll};

use xmp_base::{Failed, Sink};

/// Sends a text. Each turn the sink takes at least a byte, or fails.
pub fn send<O: Sink>(out: &mut O, text: &[u8]) -> Result<(), Failed>
    ensures call { SendAll (O.state out.old) (O.state out.new) text.now result }
{
    let mut done = 0;
    while done < text.len() {
        done += out.write(&text[done..])?;
    }
    Ok(())
}
