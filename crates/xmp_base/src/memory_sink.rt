// A sink in memory, which fails where it is told to.
ghost use Rattle.std.specs.Prelude.{◌≡◌, ◌<◌, ◌^◌, ◌++◌, ◌∷◌, [], length, IsErr, OnOk, OnErr};
ghost use Rattle.xmp_base.specs.Device.{SendCall};
ghost use Rattle.xmp_base.specs.Memory.{FailsExactly, Sends, is_planned_send, new_sink, sink_state, up};

use crate::{Failed, Sink};
use std::alloc::{AllocError, Global};
use std::marker::Model;
use xmp_values::Memory;

/// A sink that keeps what is sent to it.
///
/// Each `write` counts as one call, from 1. A call fails exactly where its number is planned or its
/// growth is refused, and `wants` counts the latter. A call that fails takes nothing, any other
/// takes the whole piece.
#[derive(Drop)]
pub struct MemorySink {
    bytes: Vec<u8>,
    plan: Vec<u64>,
    calls: u64,
    wants: u64,
    faults: u64,
}

impl Model for MemorySink {
    ghost use Rattle.std.specs.Prelude.{◌≡◌, ◌<◌, ◌^◌, []};
    ghost use Rattle.xmp_base.specs.MemoryState.{SinkMemory};

    ghost Value = { SinkMemory };

    ghost view = { λ s. record { bytes = s.bytes.items; plan = s.plan.items; calls = s.calls; wants = s.wants; faults = s.faults } };

    ghost invariant = { λ s. s.plan.items ≡ [] → s.faults ≡ s.wants };
}

impl MemorySink {
    /// A sink to which nothing was sent, and which fails at no call.
    pub fn new(alloc: Global) -> MemorySink
        ensures { result ≡ new_sink }
    {
        MemorySink {
            bytes: Vec::new(alloc),
            plan: Vec::new(alloc),
            calls: 0,
            wants: 0,
            faults: 0,
        }
    }

    /// Plans that the call of this number, from 1, fails. A number of the past plans nothing.
    ///
    /// # Errors
    /// `Memory`; then nothing has changed.
    pub fn fail(&mut self, call: u64) -> Result<(), Memory>
        ensures ok { OnOk result (self.new ≡ record self.old { plan = self.old.plan ++ call ∷ [] }) }
        ensures err { OnErr result (self.new ≡ self.old) }
    {
        self.plan.push(call)?;
        Ok(())
    }

    /// All bytes that were taken, in their order.
    pub fn sent(&self) -> &[u8]
        ensures { result.now ≡ self.now.bytes }
    {
        self.bytes.as_slice()
    }

    /// How many calls were refused memory.
    pub fn wants(&self) -> u64
        ensures value { result ≡ self.now.wants }
        // Where no failure is planned, each failure was a want of memory.
        ensures unplanned { self.now.plan ≡ [] → self.now.faults ≡ self.now.wants }
    {
        self.wants
    }

    /// Counts a call, and answers whether it is to fail.
    fn is_planned(&mut self) -> bool
        ensures calls { self.new ≡ record self.old { calls = up self.old.calls } }
        ensures planned { result ≡ is_planned_send self.old }
    {
        self.calls = self.calls.saturating_add(1);
        self.plan.contains(&self.calls)
    }

    /// Counts a planned failure.
    fn fault(&mut self)
        requires { 0 < length self.old.plan }
        ensures fits { self.old.faults < 2 ^ 64 }
        ensures after { self.new ≡ record self.old { faults = up self.old.faults } }
    {
        self.faults = self.faults.saturating_add(1);
    }

    /// Counts a failure for want of memory.
    fn want(&mut self)
        ensures fits { self.old.faults < 2 ^ 64 }
        ensures after { self.new ≡ record self.old { faults = up self.old.faults; wants = up self.old.wants } }
    {
        self.faults = self.faults.saturating_add(1);
        self.wants = self.wants.saturating_add(1);
    }

    /// Keeps a piece. At an error nothing has changed.
    fn take(&mut self, piece: &[u8]) -> Result<(), AllocError>
        ensures ok { OnOk result (self.new ≡ record self.old { bytes = self.old.bytes ++ piece.now }) }
        ensures err { OnErr result (self.new ≡ self.old) }
    {
        self.bytes.extend_from_slice(piece)
    }
}

impl Sink for MemorySink {
    ghost state = { sink_state };

    fn write(&mut self, from: &[u8]) -> Result<usize, Failed>
        ensures call { SendCall (sink_state self.old) (sink_state self.new) from.now result }
        ensures after { Sends self.old self.new from.now result }
        ensures fails { FailsExactly (is_planned_send self.old) self.old.wants self.new.wants (IsErr result) }
    {
        if self.is_planned() {
            self.fault();
            return Err(Failed);
        }
        match self.take(from) {
            Ok(()) => Ok(from.len()),
            Err(_) => {
                self.want();
                Err(Failed)
            }
        }
    }
}
